// A run by workers.
ghost use Rattle.std.specs.Prelude.{◌≡◌, IfOk};
ghost use Rattle.tn_text.specs.Watch.{has_failed};
ghost use Rattle.tn_run.specs.Answers.{live_run};
ghost use Rattle.tn_run.specs.Workers.{IsWorkerCount};
ghost use Rattle.tn_command.specs.JobForms.{job_in_form};
ghost use Rattle.complete_workers.specs.Ends.{EndAlike, SeenAlike, TellAlike, Knows};
ghost use Rattle.complete_workers.specs.Runs.{AreOfOneText};
ghost use Rattle.complete_command.specs.Jobs.{FlushAlike, HaveOneStatus, RemainAlike, WorkAlike};

use std::alloc::Global;
use std::io::{Read, Write};
use std::marker::Sync;
use std::sync::Wait;
use std::thread::Threads;
use tn_command::{JobEnd, OutputFault, OutputForm};
use tn_pool::Gate;
use tn_run::{LiveFault, Ran, Workers};
use tn_text::Watched;

/// `tn_command::run_workers_over` has one answer where the readers tell their bytes, but for which picks move,
/// which end fails, and when: there is one outcome and one status, and what is written goes by the picks. The
/// allocator comes with the workers.
pub fn run_workers_over<R: Read, W: Write, T: Threads + Wait + Sync, G: Gate>(
    rt: &T,
    by: (Global, &Workers<'_, G>),
    one: &mut Watched<R>,
    other: &mut Watched<R>,
    out: &mut Watched<W>,
    same_out: &mut Watched<W>,
) -> (JobEnd<Ran, LiveFault>, JobEnd<Ran, LiveFault>)
    requires count { IsWorkerCount by.1.now.count }
    requires reported { TellAlike R.remaining one.old other.old }
    requires failed { has_failed one.old ≡ has_failed other.old }
    requires outs { SeenAlike W.contents out.old same_out.old }
    ensures outcome { Knows R.remaining one.old → IfOk result.0.answer (λ r. IfOk result.1.answer (AreOfOneText r)) }
    ensures status { Knows R.remaining one.old → HaveOneStatus result.0 result.1 }
    ensures written { Knows R.remaining one.old → WorkAlike live_run W.contents out.old out.new
        same_out.new result.0 result.1 }
    ensures left { RemainAlike live_run R.remaining one.old one.new other.new result.0 result.1 }
    ensures reader { EndAlike result.0.answer result.1.answer → has_failed one.new ≡ has_failed other.new }
    ensures writer { EndAlike result.0.answer result.1.answer → has_failed out.new ≡ has_failed same_out.new }
    ensures flushed { FlushAlike live_run out.new same_out.new result.0 result.1 }
{
    let (alloc, workers) = by;
    let first = tn_command::run_workers_over(rt, alloc, one, out, workers);
    let second = tn_command::run_workers_over(rt, alloc, other, same_out, workers);
    (first, second)
}

/// `tn_command::run_workers_in_form_over` has one answer where the bytes of the readers are known, but for which picks
/// move, which end fails, and when: there is one outcome and one status, and what is written in the form goes by the
/// picks. The allocator and the form come with the workers.
pub fn run_workers_in_form_over<R: Read, W: Write, T: Threads + Wait + Sync, G: Gate>(
    rt: &T,
    by: (Global, &Workers<'_, G>, OutputForm),
    one: &mut Watched<R>,
    other: &mut Watched<R>,
    out: &mut Watched<W>,
    same_out: &mut Watched<W>,
) -> (
    JobEnd<Ran, OutputFault<LiveFault>>,
    JobEnd<Ran, OutputFault<LiveFault>>,
)
    requires count { IsWorkerCount by.1.now.count }
    requires reported { TellAlike R.remaining one.old other.old }
    requires failed { has_failed one.old ≡ has_failed other.old }
    requires outs { SeenAlike W.contents out.old same_out.old }
    ensures outcome { Knows R.remaining one.old → IfOk result.0.answer (λ r. IfOk result.1.answer (AreOfOneText r)) }
    ensures status { Knows R.remaining one.old → HaveOneStatus result.0 result.1 }
    ensures written { Knows R.remaining one.old → WorkAlike (job_in_form by.entry.2 live_run) W.contents
        out.old out.new same_out.new result.0 result.1 }
    ensures left { RemainAlike (job_in_form by.entry.2 live_run) R.remaining
        one.old one.new other.new result.0 result.1 }
    ensures reader { EndAlike result.0.answer result.1.answer → has_failed one.new ≡ has_failed other.new }
    ensures writer { EndAlike result.0.answer result.1.answer → has_failed out.new ≡ has_failed same_out.new }
    ensures flushed { FlushAlike (job_in_form by.entry.2 live_run) out.new same_out.new result.0 result.1 }
{
    let (alloc, workers, form) = by;
    let first = tn_command::run_workers_in_form_over(rt, alloc, one, out, workers, form);
    let second = tn_command::run_workers_in_form_over(rt, alloc, other, same_out, workers, form);
    (first, second)
}
