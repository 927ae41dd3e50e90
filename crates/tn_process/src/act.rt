// What a process does at its next step.
use std::alloc::Allocator;
use tn_flags::Event;
use tn_script::Entry;
use tn_term::{SharedTerm, Term};

/// What a process does at its next step, apart from the change in itself.
#[derive(Drop)]
pub enum Act<A: Allocator> {
    /// It can't move.
    Waits,
    /// It goes on, with the events of the step: one at most, but where an exception leaves frames.
    Continues(Vec<Event<A>, A>),
    /// It sends a message to a pid.
    Sends {
        to: u32,
        message: SharedTerm<A>,
    },
    /// It links itself to another process.
    LinksTo(u32),
    /// It removes its link to another process.
    UnlinksFrom(u32),
    /// It starts a process with this pid.
    Spawns {
        child: u32,
        entry: Entry<A>,
    },
    /// It ends, with the events before the exit: that of a return, or those of an exception.
    Exits {
        reason: Term<A>,
        events: Vec<Event<A>, A>,
    },
}
