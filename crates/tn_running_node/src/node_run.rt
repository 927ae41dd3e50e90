// The processes of a running node, as far as they aren't those of the model.
ghost use Rattle.std.specs.Prelude.{◌≡◌, ◌||◌, IfOk};
ghost use Rattle.std.specs.Option.{option_map};
ghost use Rattle.def_running_node.specs.NodeRuns as definition;
ghost use Rattle.def_running_node.specs.NodeRuns.{is_limit, goes_on_with, goes_on, ends_by_error, has_ended, ended_by};
ghost use Rattle.tn_flags.specs.Views.{event_of};
ghost use Rattle.tn_term.specs.Views.{tree_of};
ghost use Rattle.tn_node.specs.Outlooks.{outlook_seen};
ghost use Rattle.tn_process.specs.Outlooks.{error_seen};
ghost use Rattle.tn_running_node.specs.Views.{node_run_seen, ended_seen};
ghost use Rattle.tn_running_node.specs.RunChanges.{after_end, after_part, run_after_link, after_change};
ghost use Rattle.tn_running_node.specs.RunChanges.{goes_on_at, determined_after};

use crate::signals::{Signal, add_signal, may_move, remove_signal, signal_of};
use std::alloc::{AllocError, Allocator};
use tn_flags::Event;
use tn_node::Outlook;
use tn_process::RuntimeError;
use tn_term::{Alive, Term};

/// The process that ended last, unless with the reason `normal`, and whether by an error.
#[derive(Clone, Copy, Debug, PartialEq, Eq, Drop)]
pub struct ProcessEnd {
    pub process: u32,
    pub of_error: bool,
}

/// The processes that are alive, those that have a signal, and the one that ended last; and whether the run on a node
/// is determined.
#[derive(Drop)]
pub struct NodeRun<A: Allocator> {
    pub alive: Alive,
    pub signals: Vec<Signal, A>,
    pub ended: Option<ProcessEnd>,
    pub is_determined: bool,
}

/// Whether the error is of a limit of the model, which a node doesn't have.
fn is_limit(error: RuntimeError) -> bool
    ensures { result ≡ is_limit (error_seen error) }
{
    match error {
        RuntimeError::BuildsPastLimit
        | RuntimeError::CallsPastLimit
        | RuntimeError::SpawnsPastLimit => true,
        RuntimeError::CallsNothing
        | RuntimeError::SendsToNoPid
        | RuntimeError::LinksToNoPid
        | RuntimeError::UnlinksFromNoPid => false,
    }
}

/// Whether the step is an error which a catch catches on a node, or which is none there.
fn goes_on(outlook: Outlook) -> bool
    ensures { result ≡ goes_on (outlook_seen outlook) }
{
    match outlook.error {
        None => false,
        Some(error) => is_limit(error) || outlook.caught_at.is_some(),
    }
}

/// The process that ended, unless with the reason `normal`.
fn ended_by<A: Allocator>(pid: u32, reason: &Term<A>, of_error: bool) -> Option<ProcessEnd>
    ensures { option_map ended_seen result ≡ ended_by pid (tree_of reason.now) of_error }
{
    if reason.is_word("normal") {
        return None;
    }
    Some(ProcessEnd {
        process: pid,
        of_error,
    })
}

impl<A: Allocator> NodeRun<A> {
    /// Whether this process ended last, and not with the reason `normal`.
    pub fn has_ended(&self, pid: u32) -> bool
        ensures { result ≡ has_ended (node_run_seen self.now).ended pid }
    {
        match self.ended {
            None => false,
            Some(ended) => ended.process == pid,
        }
    }

    /// Whether the exit of a process is by an error: of this step, or of a signal's reason.
    pub fn ends_by_error(&self, outlook: Outlook, pid: u32) -> bool
        ensures { result ≡ ends_by_error (node_run_seen self.now) (outlook_seen outlook) pid }
    {
        if outlook.error.is_some() {
            return true;
        }
        match signal_of(&self.signals, pid) {
            None => false,
            Some(signal) => signal.of_error,
        }
    }

    /// A move of this pick: on a node every process that has a signal has ended.
    pub fn begin_move(&mut self, pick: u32)
        ensures { node_run_seen self.new ≡ definition.at_move (node_run_seen self.old) pick }
    {
        self.is_determined = self.is_determined && may_move(&self.signals, pick);
    }

    /// The process ends: whoever was linked to it gets its reason, unless that is `normal`.
    fn end(&mut self, outlook: Outlook, pid: u32, reason: &Term<A>)
        ensures { node_run_seen self.new ≡
            after_end (node_run_seen self.old) (outlook_seen outlook) pid (tree_of reason.now) }
    {
        let of_error = self.ends_by_error(outlook, pid);
        self.ended = ended_by(pid, reason, of_error);
        self.alive.remove(pid);
        remove_signal(&mut self.signals, pid);
    }

    /// The process loses its link to another: it gets a signal, where that one ended, and not with the reason `normal`.
    fn part(&mut self, pid: u32, other: u32) -> Result<(), AllocError>
        ensures { IfOk result (λ _. node_run_seen self.new ≡ after_part (node_run_seen self.old) pid other) }
    {
        let Some(ended) = self.ended else {
            return Ok(());
        };
        if ended.process != other {
            return Ok(());
        }
        let signal = Signal {
            process: pid,
            of_error: ended.of_error,
            is_reported: false,
        };
        add_signal(&mut self.signals, signal)
    }

    /// The process links itself to another: it gets a signal, where that one isn't alive.
    fn link(&mut self, pid: u32, other: u32) -> Result<(), AllocError>
        ensures { IfOk result (λ _. node_run_seen self.new ≡ run_after_link (node_run_seen self.old) pid other) }
    {
        if self.alive.has(other) {
            return Ok(());
        }
        let signal = Signal {
            process: pid,
            of_error: true,
            is_reported: true,
        };
        add_signal(&mut self.signals, signal)
    }

    /// What the event does to the processes.
    fn change(&mut self, outlook: Outlook, event: &Event<A>) -> Result<(), AllocError>
        ensures { IfOk result (λ _. node_run_seen self.new ≡
            after_change (node_run_seen self.old) (outlook_seen outlook) (event_of event.now)) }
    {
        match event {
            Event::Exited { pid, reason } => {
                self.end(outlook, *pid, reason);
                Ok(())
            }
            Event::GettingUnlinked { pid, other } => self.part(*pid, *other),
            Event::Linked { pid, other } => self.link(*pid, *other),
            Event::Spawned { pid, .. } => {
                self.alive.add(*pid);
                Ok(())
            }
            _ => Ok(()),
        }
    }

    /// Whether a step goes on on a node at this event of it: it is an error there which a catch catches, or none.
    fn goes_on_at(&self, outlook: Outlook, event: &Event<A>) -> bool
        ensures { result ≡ goes_on_at (node_run_seen self.now) (outlook_seen outlook) (event_of event.now) }
    {
        match event {
            Event::Exited { .. } => goes_on(outlook),
            Event::Linked { other, .. } => {
                let is_none = !self.alive.has(*other);
                is_none & outlook.caught_at.is_some()
            }
            _ => false,
        }
    }

    /// Whether the run is determined after an event of a step of which this was known before it.
    pub fn is_determined_after(&self, outlook: Outlook, event: &Event<A>) -> bool
        ensures { result ≡ determined_after (node_run_seen self.now) (outlook_seen outlook) (event_of event.now) }
    {
        let goes_on = self.goes_on_at(outlook, event);
        self.is_determined & !goes_on
    }

    /// After an event of a step of which this was known before it. An error is refused memory.
    pub fn see(&mut self, outlook: Outlook, event: &Event<A>) -> Result<(), AllocError>
        ensures { IfOk result (λ _. node_run_seen self.new ≡
            definition.run_after (node_run_seen self.old) (outlook_seen outlook) (event_of event.now)) }
    {
        let is_determined = self.is_determined_after(outlook, event);
        self.change(outlook, event)?;
        self.is_determined = is_determined;
        Ok(())
    }
}
