// A job with a script.
ghost use Rattle.std.specs.Prelude.{◌≡◌};
ghost use Rattle.tn_text.specs.Watch.{has_failed};
ghost use Rattle.complete_workers.specs.Ends.{EndAlike, SeenAlike, TellAlike, Knows};
ghost use Rattle.complete_command.specs.Jobs.{AnswerAlike, HasOneAnswer, HaveOneStatus};
ghost use Rattle.complete_command.specs.Jobs.{FlushAlike, GainAlike, RemainAlike};

use std::alloc::Allocator;
use std::io::{Read, Write};
use tn_command::{JobEnd, OutputFault, WithinBytes};
use tn_explain::{ExplainOutcome, ExplainRequest};
use tn_picture::{DrawOutcome, DrawRequest};
use tn_replay::{Replay, ReplayOutcome};
use tn_run::{DirectJob, RunFault};
use tn_state::{StateOutcome, StateRequest};
use tn_text::Watched;

/// `tn_command::perform_over` has one answer where the readers tell their bytes and the job has one, but for
/// which end fails, and when: there is one outcome and one status, and what is written, left and remembered
/// goes by the fault.
pub fn perform_over<A: Allocator + Copy, J: DirectJob<A>, R: Read, W: Write>(
    alloc: A,
    job: &J,
    one: &mut Watched<R>,
    other: &mut Watched<R>,
    out: &mut Watched<W>,
    same_out: &mut Watched<W>,
) -> (JobEnd<J::Outcome, J::Fault>, JobEnd<J::Outcome, J::Fault>)
    requires answer { HasOneAnswer (J.view job.now) }
    requires reported { TellAlike R.remaining one.old other.old }
    requires failed { has_failed one.old ≡ has_failed other.old }
    requires outs { SeenAlike W.contents out.old same_out.old }
    ensures outcome { Knows R.remaining one.old → AnswerAlike result.0 result.1 }
    ensures status { Knows R.remaining one.old → HaveOneStatus result.0 result.1 }
    ensures written { Knows R.remaining one.old → GainAlike W.contents out.old out.new same_out.new result.0 result.1 }
    ensures unread { ((J.view job.now).reads → ⊥) → TellAlike R.remaining one.new other.new }
    ensures left { RemainAlike (J.view job.now) R.remaining one.old one.new other.new result.0 result.1 }
    ensures reader { EndAlike result.0.answer result.1.answer → has_failed one.new ≡ has_failed other.new }
    ensures writer { EndAlike result.0.answer result.1.answer → has_failed out.new ≡ has_failed same_out.new }
    ensures flushed { FlushAlike (J.view job.now) out.new same_out.new result.0 result.1 }
{
    let first = tn_command::perform_over(alloc, job, one, out);
    let second = tn_command::perform_over(alloc, job, other, same_out);
    (first, second)
}

/// `tn_command::perform_over` has one answer of a job within a bound, where the job has one, as said of any job that
/// has one.
pub fn within<A: Allocator + Copy, J: DirectJob<A>, R: Read, W: Write>(
    alloc: A,
    job: &WithinBytes<'_, J>,
    one: &mut Watched<R>,
    other: &mut Watched<R>,
    out: &mut Watched<W>,
    same_out: &mut Watched<W>,
) -> (
    JobEnd<J::Outcome, OutputFault<J::Fault>>,
    JobEnd<J::Outcome, OutputFault<J::Fault>>,
)
    requires answer { HasOneAnswer (J.view job.now.job.now) }
    requires reported { TellAlike R.remaining one.old other.old }
    requires failed { has_failed one.old ≡ has_failed other.old }
    requires outs { SeenAlike W.contents out.old same_out.old }
    ensures outcome { Knows R.remaining one.old → AnswerAlike result.0 result.1 }
    ensures status { Knows R.remaining one.old → HaveOneStatus result.0 result.1 }
    ensures written { Knows R.remaining one.old → GainAlike W.contents out.old out.new same_out.new result.0 result.1 }
{
    perform_over(alloc, job, one, other, out, same_out)
}

/// `tn_command::perform_over` has one answer of a run with its notes or without, as said of any job that has one.
pub fn replay<A: Allocator + Copy, R: Read, W: Write>(
    alloc: A,
    job: &Replay<'_>,
    one: &mut Watched<R>,
    other: &mut Watched<R>,
    out: &mut Watched<W>,
    same_out: &mut Watched<W>,
) -> (
    JobEnd<ReplayOutcome, RunFault>,
    JobEnd<ReplayOutcome, RunFault>,
)
    requires reported { TellAlike R.remaining one.old other.old }
    requires failed { has_failed one.old ≡ has_failed other.old }
    requires outs { SeenAlike W.contents out.old same_out.old }
    ensures outcome { Knows R.remaining one.old → AnswerAlike result.0 result.1 }
    ensures status { Knows R.remaining one.old → HaveOneStatus result.0 result.1 }
    ensures written { Knows R.remaining one.old → GainAlike W.contents out.old out.new same_out.new result.0 result.1 }
{
    perform_over(alloc, job, one, other, out, same_out)
}

/// `tn_command::perform_over` has one answer of a run that is explained, as said of any job that has one.
pub fn explain<A: Allocator + Copy, R: Read, W: Write>(
    alloc: A,
    request: &ExplainRequest<'_>,
    one: &mut Watched<R>,
    other: &mut Watched<R>,
    out: &mut Watched<W>,
    same_out: &mut Watched<W>,
) -> (
    JobEnd<ExplainOutcome, RunFault>,
    JobEnd<ExplainOutcome, RunFault>,
)
    requires reported { TellAlike R.remaining one.old other.old }
    requires failed { has_failed one.old ≡ has_failed other.old }
    requires outs { SeenAlike W.contents out.old same_out.old }
    ensures outcome { Knows R.remaining one.old → AnswerAlike result.0 result.1 }
    ensures status { Knows R.remaining one.old → HaveOneStatus result.0 result.1 }
    ensures written { Knows R.remaining one.old → GainAlike W.contents out.old out.new same_out.new result.0 result.1 }
{
    perform_over(alloc, request, one, other, out, same_out)
}

/// `tn_command::perform_over` has one answer of a run whose state is asked for, as said of any job that has one.
pub fn state<A: Allocator + Copy, R: Read, W: Write>(
    alloc: A,
    request: &StateRequest<'_>,
    one: &mut Watched<R>,
    other: &mut Watched<R>,
    out: &mut Watched<W>,
    same_out: &mut Watched<W>,
) -> (
    JobEnd<StateOutcome, RunFault>,
    JobEnd<StateOutcome, RunFault>,
)
    requires reported { TellAlike R.remaining one.old other.old }
    requires failed { has_failed one.old ≡ has_failed other.old }
    requires outs { SeenAlike W.contents out.old same_out.old }
    ensures outcome { Knows R.remaining one.old → AnswerAlike result.0 result.1 }
    ensures status { Knows R.remaining one.old → HaveOneStatus result.0 result.1 }
    ensures written { Knows R.remaining one.old → GainAlike W.contents out.old out.new same_out.new result.0 result.1 }
{
    perform_over(alloc, request, one, other, out, same_out)
}

/// `tn_command::perform_over` has one answer of a run that is drawn, as said of any job that has one.
pub fn draw<A: Allocator + Copy, R: Read, W: Write>(
    alloc: A,
    request: &DrawRequest<'_>,
    one: &mut Watched<R>,
    other: &mut Watched<R>,
    out: &mut Watched<W>,
    same_out: &mut Watched<W>,
) -> (JobEnd<DrawOutcome, RunFault>, JobEnd<DrawOutcome, RunFault>)
    requires reported { TellAlike R.remaining one.old other.old }
    requires failed { has_failed one.old ≡ has_failed other.old }
    requires outs { SeenAlike W.contents out.old same_out.old }
    ensures outcome { Knows R.remaining one.old → AnswerAlike result.0 result.1 }
    ensures status { Knows R.remaining one.old → HaveOneStatus result.0 result.1 }
    ensures written { Knows R.remaining one.old → GainAlike W.contents out.old out.new same_out.new result.0 result.1 }
{
    perform_over(alloc, request, one, other, out, same_out)
}
