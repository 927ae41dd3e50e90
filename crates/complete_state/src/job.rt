// The state of a script's run.
ghost use Rattle.std.specs.Prelude.{◌≡◌, IfOk};
ghost use Rattle.tn_text.specs.Watch.{has_failed, is_flushed};
ghost use Rattle.tn_moves.specs.Schedules.{HasPicks, schedule_seen};
ghost use Rattle.tn_run.specs.Jobs.{failed_end};
ghost use Rattle.complete_workers.specs.Ends.{EndAlike, SeenAlike, TellAlike, Knows, WriteAlike};
ghost use Rattle.complete_workers.specs.Runs.{LeaveAlike, MeetNoWriteFault};

use std::alloc::Allocator;
use std::io::{Read, Write};
use tn_run::RunFault;
use tn_state::{StateOutcome, StateRequest};
use tn_text::Watched;

/// `tn_state::show_state` has one answer where the bytes of both readers are known, but for which end fails, and when:
/// there is one outcome, and what is written, left and remembered goes by the fault.
pub fn show_state<A: Allocator + Copy, R: Read, W: Write>(
    alloc: A,
    one: &mut Watched<R>,
    other: &mut Watched<R>,
    out: &mut Watched<W>,
    same_out: &mut Watched<W>,
    request: &StateRequest<'_>,
) -> (
    Result<StateOutcome, RunFault>,
    Result<StateOutcome, RunFault>,
)
    requires reported { TellAlike R.remaining one.old other.old }
    requires failed { has_failed one.old ≡ has_failed other.old }
    requires outs { SeenAlike W.contents out.old same_out.old }
    ensures outcome { Knows R.remaining one.old → IfOk result.0 (λ o. IfOk result.1 (λ p. o ≡ p)) }
    ensures written { Knows R.remaining one.old → WriteAlike W.contents out.old out.new same_out.new result.0 result.1 }
    ensures unread { (HasPicks (schedule_seen request.now.schedule) → ⊥) → TellAlike R.remaining one.new other.new }
    ensures left { LeaveAlike failed_end R.remaining one.old one.new other.new result.0 result.1 }
    ensures reader { EndAlike result.0 result.1 → has_failed one.new ≡ has_failed other.new }
    ensures writer { EndAlike result.0 result.1 → has_failed out.new ≡ has_failed same_out.new }
    ensures flushed { MeetNoWriteFault failed_end result.0 result.1 → is_flushed out.new ≡ is_flushed same_out.new }
{
    let first = tn_state::show_state(alloc, one, out, request);
    let second = tn_state::show_state(alloc, other, same_out, request);
    (first, second)
}
