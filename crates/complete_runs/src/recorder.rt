// What keeps the messages and replies of a run.
ghost use Rattle.std.specs.Prelude.{ℕ, List, IfOk};
ghost use Rattle.def_script.specs.Program.{Program};
ghost use Rattle.tn_trace.specs.Recorders.{HasRecorded};
ghost use Rattle.complete_runs.specs.ObservedRuns.{AreRecorders};

use std::alloc::{AllocError, Allocator};
use tn_trace::{Recorder, SharedSink};

/// `tn_trace::Recorder::share` has one answer: both copies recorded the program's run by the same picks.
pub fn share<A: Allocator + Copy, K: SharedSink<A> + Drop>(
    one: &Recorder<A, K>,
    other: &Recorder<A, K>,
) -> (
    Result<Recorder<A, K>, AllocError>,
    Result<Recorder<A, K>, AllocError>,
)
    ghost at: { Program × List ℕ }
    requires one { HasRecorded K.keeps one.now at.0 at.1 }
    requires other { HasRecorded K.keeps other.now at.0 at.1 }
    ensures { IfOk result.0 (λ r. IfOk result.1 (AreRecorders K.keeps at.0 at.1 r)) }
{
    let first = one.share();
    let second = other.share();
    (first, second)
}
