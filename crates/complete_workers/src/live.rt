// A run by workers.
ghost use Rattle.std.specs.Prelude.{◌≡◌, IfOk};
ghost use Rattle.tn_text.specs.Watch.{has_failed, is_flushed};
ghost use Rattle.tn_run.specs.Answers.{live_end_of};
ghost use Rattle.tn_run.specs.Workers.{IsWorkerCount};
ghost use Rattle.complete_workers.specs.Ends.{EndAlike, SeenAlike, TellAlike, Knows};
ghost use Rattle.complete_workers.specs.Runs.{AreOfOneText, LeaveAlike, MeetNoWriteFault, OutputAlike, RunAlike};

use std::alloc::Global;
use std::io::{Read, Write};
use std::marker::Sync;
use std::sync::Wait;
use std::thread::Threads;
use tn_pool::Gate;
use tn_run::{LiveFault, Ran, Workers};
use tn_text::Watched;

/// `tn_run::run_live` has one answer where the readers tell their bytes, but for which picks move, which end
/// fails, and when: there is one outcome, and what is written goes by the picks. The allocator comes with the
/// workers.
pub fn run_live<R: Read, W: Write, T: Threads + Wait + Sync, G: Gate>(
    rt: &T,
    by: (Global, &Workers<'_, G>),
    one: &mut Watched<R>,
    other: &mut Watched<R>,
    out: &mut Watched<W>,
    same_out: &mut Watched<W>,
) -> (Result<Ran, LiveFault>, Result<Ran, LiveFault>)
    requires count { IsWorkerCount by.1.now.count }
    requires reported { TellAlike R.remaining one.old other.old }
    requires failed { has_failed one.old ≡ has_failed other.old }
    requires outs { SeenAlike W.contents out.old same_out.old }
    ensures outcome { Knows R.remaining one.old → IfOk result.0 (λ r. IfOk result.1 (AreOfOneText r)) }
    ensures written { Knows R.remaining one.old → RunAlike live_end_of W.contents out.old out.new
        same_out.new result.0 result.1 }
    ensures left { LeaveAlike live_end_of R.remaining one.old one.new other.new result.0 result.1 }
    ensures reader { EndAlike result.0 result.1 → has_failed one.new ≡ has_failed other.new }
    ensures writer { EndAlike result.0 result.1 → has_failed out.new ≡ has_failed same_out.new }
    ensures flushed { MeetNoWriteFault live_end_of result.0 result.1 → is_flushed out.new ≡ is_flushed same_out.new }
{
    let (alloc, workers) = by;
    let first = tn_run::run_live(rt, alloc, one, out, workers);
    let second = tn_run::run_live(rt, alloc, other, same_out, workers);
    (first, second)
}

/// `tn_run::prepare_live` has one answer where the bytes of the readers are known, but for which picks move, whether a
/// read fails, and when: there is one outcome, and the output goes by the picks.
pub fn prepare_live<R: Read, T: Threads + Wait + Sync, G: Gate>(
    rt: &T,
    alloc: Global,
    one: &mut Watched<R>,
    other: &mut Watched<R>,
    workers: &Workers<'_, G>,
) -> (
    Result<(Ran, Vec<u8>), LiveFault>,
    Result<(Ran, Vec<u8>), LiveFault>,
)
    requires count { IsWorkerCount workers.now.count }
    requires reported { TellAlike R.remaining one.old other.old }
    requires failed { has_failed one.old ≡ has_failed other.old }
    ensures outcome { Knows R.remaining one.old → IfOk result.0 (λ r. IfOk result.1 (λ q. AreOfOneText r.0 q.0)) }
    ensures output { Knows R.remaining one.old → IfOk result.0 (λ r. IfOk result.1 (OutputAlike r.0 r.1.items)) }
    ensures left { LeaveAlike live_end_of R.remaining one.old one.new other.new result.0 result.1 }
    ensures reader { EndAlike result.0 result.1 → has_failed one.new ≡ has_failed other.new }
{
    let first = tn_run::prepare_live(rt, alloc, one, workers);
    let second = tn_run::prepare_live(rt, alloc, other, workers);
    (first, second)
}
