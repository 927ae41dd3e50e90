// A run once more, with one owner more of what it keeps.
ghost use Rattle.std.specs.Prelude.{◌≡◌, IfOk};
ghost use Rattle.std.specs.Option.{option_map};
ghost use Rattle.tn_session.specs.Sessions.{value_in};
ghost use Rattle.tn_trace.specs.Slots.{EachPair};
ghost use Rattle.tn_trace.specs.Shares.{IsSlotCopy};

use crate::recorder::Recorder;
use crate::run::Run;
use crate::sink::SharedSink;
use crate::slot::Slot;
use std::alloc::{AllocError, Allocator};
use tn_session::Session;

/// The same session once more, where it is created.
fn share_session<A: Allocator + Copy>(
    session: &Option<Session<A>>,
) -> Result<Option<Session<A>>, AllocError>
    ensures { IfOk result (λ s. option_map value_in s ≡ option_map value_in session.now) }
{
    match session {
        Some(session) => Ok(Some(session.share()?)),
        None => Ok(None),
    }
}

/// The same sessions once more.
fn share_slots<A: Allocator + Copy, K: SharedSink<A> + Drop>(
    alloc: A,
    slots: &Vec<Slot<A, K>, A>,
) -> Result<Vec<Slot<A, K>, A>, AllocError>
    ensures { IfOk result (λ v. EachPair (IsSlotCopy K.keeps) slots.now.items v.items) }
{
    let mut copies = Vec::with_capacity(alloc, slots.len())?;
    for slot in slots {
        copies.push(slot.share(alloc)?)?;
    }
    Ok(copies)
}

/// The same picks.
fn copy_picks<A: Allocator + Copy>(alloc: A, picks: &Vec<u32, A>) -> Result<Vec<u32, A>, AllocError>
    ensures { IfOk result (λ v. v.items ≡ picks.now.items) }
{
    let mut copy = Vec::with_capacity(alloc, picks.len().saturating_add(1))?;
    copy.extend_from_slice(picks)?;
    Ok(copy)
}

impl<A: Allocator + Copy, K: SharedSink<A> + Drop> Slot<A, K> {
    ghost use Rattle.std.specs.Prelude.{IfOk};
    ghost use Rattle.tn_trace.specs.Shares.{IsSlotCopy};

    /// The same session once more. What is kept of its messages has one owner more.
    ///
    /// # Errors
    ///
    /// AllocError where memory was refused, or a count of owners is full.
    pub fn share(&self, alloc: A) -> Result<Slot<A, K>, AllocError>
        ensures { IfOk result (IsSlotCopy K.keeps self.now) }
    {
        Ok(Slot {
            number: self.number,
            name: self.name.copy_into(alloc)?,
            session: share_session(&self.session)?,
            kept: self.kept.share(alloc)?,
        })
    }
}

impl<A: Allocator + Copy, K: SharedSink<A> + Drop> Recorder<A, K> {
    ghost use Rattle.std.specs.Prelude.{IfOk};
    ghost use Rattle.tn_trace.specs.Shares.{IsRecorderCopy};

    /// The same sessions, who lives, and what is kept of the messages and the replies, once more.
    ///
    /// # Errors
    ///
    /// AllocError where memory was refused, or a count of owners is full.
    pub fn share(&self) -> Result<Recorder<A, K>, AllocError>
        ensures { IfOk result (IsRecorderCopy K.keeps self.now) }
    {
        Ok(Recorder {
            alloc: self.alloc,
            living: self.living,
            slots: share_slots(self.alloc, &self.slots)?,
            replies: self.replies.share(self.alloc)?,
            room: Vec::new(self.alloc),
        })
    }
}

impl<A: Allocator + Copy, K: SharedSink<A> + Drop> Run<A, Recorder<A, K>> {
    ghost use Rattle.std.specs.Prelude.{IfOk};
    ghost use Rattle.tn_trace.specs.Shares.{IsRunCopy};

    /// The same run once more.
    ///
    /// # Errors
    ///
    /// AllocError where memory was refused, or a count of owners is full.
    pub fn share(&self) -> Result<Run<A, Recorder<A, K>>, AllocError>
        ensures { IfOk result (IsRunCopy K.keeps self.now) }
    {
        Ok(Run {
            node: self.node.share()?,
            observer: self.observer.share()?,
            journal: copy_picks(self.observer.alloc, &self.journal)?,
            limit: self.limit,
        })
    }
}
