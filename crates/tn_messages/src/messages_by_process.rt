// The messages of a session by process.
ghost use Rattle.std.specs.Prelude.{◌≡◌, ◌<◌, ◌≤◌, length, IfOk, IfSome};
ghost use Rattle.tn_messages.specs.MessageViews.{lists_seen, shared_lists, with_empty, pid_place};

use crate::list::{MessageList, share_messages};
use crate::shared_list::{SharedList, add_message, same_lists};
use crate::shared_message::SharedMessage;
use std::alloc::{AllocError, Allocator};
use std::hash::{FoldHasher, Hash};
use std::sync::Arc;
use tn_term::{FIRST_PID, PROCESSES};

/// The messages of each process, by rising pid.
type ProcessLists<A> = Vec<SharedList<A>, A>;

/// The messages of a session: those of each of the processes 100 to 163 in their order. After the list of the last
/// process that has a message there are none. A list may have several owners: it is copied before one of them
/// changes it.
#[derive(Drop)]
pub struct MessagesByProcess<A: Allocator> {
    lists: ProcessLists<A>,
}

/// Adds empty lists, up to this many.
fn lengthen<A: Allocator + Copy>(
    alloc: A,
    lists: &mut ProcessLists<A>,
    count: usize,
) -> Result<(), AllocError>
    ensures with_empty { IfOk result (λ _. shared_lists lists.new ≡ with_empty count (shared_lists lists.old)) }
    ensures long { IfOk result (λ _. count ≤ length lists.new.items) }
{
    for _ in lists.len()..count {
        let list = Arc::new(alloc, Vec::new(alloc))?;
        lists.push(list)?;
    }
    Ok(())
}

/// The same lists, each with one owner more.
fn share_lists<A: Allocator + Copy>(
    alloc: A,
    lists: &ProcessLists<A>,
) -> Result<ProcessLists<A>, AllocError>
    ensures { IfOk result (λ v. shared_lists v ≡ shared_lists lists.now) }
{
    let mut copies = Vec::with_capacity(alloc, lists.len())?;
    for list in lists {
        copies.push(Arc::try_clone(list)?)?;
    }
    Ok(copies)
}

/// The same messages, each with one owner more.
fn share_all_messages<A: Allocator + Copy>(
    alloc: A,
    lists: &ProcessLists<A>,
) -> Result<Vec<MessageList<A>, A>, AllocError>
    ensures { IfOk result (λ v. lists_seen v ≡ shared_lists lists.now) }
{
    let mut copies = Vec::with_capacity(alloc, PROCESSES)?;
    for list in lists {
        copies.push(share_messages(alloc, list)?)?;
    }
    Ok(copies)
}

/// Adds empty lists, up to this many.
fn pad<A: Allocator + Copy>(
    alloc: A,
    lists: &mut Vec<MessageList<A>, A>,
    count: usize,
) -> Result<(), AllocError>
    ensures { IfOk result (λ _. lists_seen lists.new ≡ with_empty count (lists_seen lists.old)) }
{
    for _ in lists.len()..count {
        lists.push(Vec::new(alloc))?;
    }
    Ok(())
}

/// The place of a pid among those that a run gives.
fn place_of_pid(pid: Option<u32>) -> Option<usize>
    ensures place { result ≡ pid_place pid }
    ensures within { IfSome result (λ i. i < 64) }
{
    let pid = pid?;
    if pid < FIRST_PID {
        return None;
    }
    let place = (pid - FIRST_PID) as usize;
    if place < PROCESSES { Some(place) } else { None }
}

impl<A: Allocator + Copy> MessagesByProcess<A> {
    ghost use Rattle.std.specs.Prelude.{◌≡◌, [], ◌∷◌, ◌++◌, List, IfOk, IsTrue};
    ghost use Rattle.def_term.specs.Tree.{Tree};
    ghost use Rattle.def_explore.specs.Rests.{each_process, all_pids};
    ghost use Rattle.tn_messages.specs.MessageViews.{message_tree, lists_seen, AreByProcess};

    /// No message.
    pub fn none(alloc: A) -> MessagesByProcess<A>
        ensures { AreByProcess result [] }
    {
        MessagesByProcess {
            lists: Vec::new(alloc),
        }
    }

    /// One more message; one that is of no process is passed over.
    ///
    /// # Errors
    ///
    /// AllocError where memory was refused.
    pub fn add(&mut self, alloc: A, message: SharedMessage<A>) -> Result<(), AllocError>
        ensures { IfOk result (λ _. (ms : List Tree) →
            AreByProcess self.old ms → AreByProcess self.new (ms ++ message_tree message ∷ [])) }
    {
        let Some(place) = place_of_pid(message.pid()) else {
            return Ok(());
        };
        lengthen(alloc, &mut self.lists, place + 1)?;
        add_message(alloc, &mut self.lists[place], message)?;
        Ok(())
    }

    /// The same messages, each with one owner more.
    ///
    /// # Errors
    ///
    /// AllocError where memory was refused, or a count of owners is full.
    pub fn share(&self, alloc: A) -> Result<MessagesByProcess<A>, AllocError>
        ensures { IfOk result (λ k. (ms : List Tree) → AreByProcess self.now ms → AreByProcess k ms) }
    {
        Ok(MessagesByProcess {
            lists: share_lists(alloc, &self.lists)?,
        })
    }

    /// Whether each process has the same messages in the same order. Where it is false that may be so too.
    pub fn same(&self, other: &MessagesByProcess<A>) -> bool
        ensures { IsTrue result → (ms ns : List Tree) → AreByProcess self.now ms → AreByProcess other.now ns →
            each_process all_pids ms ≡ each_process all_pids ns }
    {
        same_lists(&self.lists, &other.lists)
    }

    /// Adds the messages to a hash: the same messages add the same.
    pub fn add_to(&self, hasher: &mut FoldHasher) {
        self.lists.hash(hasher);
    }

    /// The messages of each process.
    ///
    /// # Errors
    ///
    /// AllocError where memory was refused.
    pub fn into_lists(self, alloc: A) -> Result<Vec<MessageList<A>, A>, AllocError>
        ensures { IfOk result (λ v. (ms : List Tree) → AreByProcess self ms → lists_seen v ≡ each_process all_pids ms) }
    {
        let mut lists = share_all_messages(alloc, &self.lists)?;
        pad(alloc, &mut lists, PROCESSES)?;
        Ok(lists)
    }
}
