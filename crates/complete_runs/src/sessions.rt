// The sessions of a run before it, and who lives in it.
ghost use Rattle.std.specs.Prelude.{◌≡◌, IfOk};
ghost use Rattle.tn_term.specs.Views.{alive_of};
ghost use Rattle.tn_flags.specs.Views.{event_of};
ghost use Rattle.tn_program.specs.Views.{program_of};
ghost use Rattle.complete_runs.specs.Alike.{StartAlike};

use std::alloc::{AllocError, Allocator};
use tn_flags::Event;
use tn_program::Program;
use tn_term::Alive;
use tn_trace::{MessageSink, Slot};

/// `tn_trace::absent_sessions` has one answer.
pub fn absent_sessions<A: Allocator + Copy, K: MessageSink<A> + Drop>(
    alloc: A,
    one: &Program<A>,
    other: &Program<A>,
) -> (
    Result<Vec<Slot<A, K>, A>, AllocError>,
    Result<Vec<Slot<A, K>, A>, AllocError>,
)
    requires { program_of one.now ≡ program_of other.now }
    ensures { IfOk result.0 (λ v. IfOk result.1 (λ w. StartAlike K.keeps (program_of one.now) v.items w.items)) }
{
    let first = tn_trace::absent_sessions(alloc, one);
    let second = tn_trace::absent_sessions(alloc, other);
    (first, second)
}

/// `tn_trace::living_after` has one answer.
pub fn living_after<A: Allocator>(
    one: Alive,
    other: Alive,
    event: &Event<A>,
    same_event: &Event<A>,
) -> (Alive, Alive)
    requires living { alive_of one ≡ alive_of other }
    requires events { event_of event.now ≡ event_of same_event.now }
    ensures { alive_of result.0 ≡ alive_of result.1 }
{
    let first = tn_trace::living_after(one, event);
    let second = tn_trace::living_after(other, same_event);
    (first, second)
}
