// A job whose output has at most so many bytes.
ghost use Rattle.std.specs.Prelude.{◌≡◌, IfErr, IfOk};
ghost use Rattle.tn_command.specs.JobForms.{IsTooLong, HasAtMost};

use crate::command::Command;
use crate::output_fault::OutputFault;
use crate::stderr::NamedText;
use std::alloc::Allocator;
use tn_listing::PicksFault;
use tn_notice::CommandFault;
use tn_program::Program;
use tn_run::{Denial, DirectJob, Job, Refusal, RefusalForm, RunFault};

/// A job whose output is written where it has at most so many bytes. What is written for a refusal has no bound.
#[derive(Clone, Copy)]
pub struct WithinBytes<'a, J> {
    pub job: &'a J,
    pub most: usize,
}

/// The output, where it has at most so many bytes.
///
/// # Errors
///
/// TooLong, where it has more.
pub(crate) fn hold<A: Allocator, F: Drop>(
    output: Vec<u8, A>,
    most: usize,
) -> Result<Vec<u8, A>, OutputFault<F>>
    ensures same { IfOk result (λ v. v ≡ output) }
    ensures within { IfOk result (λ v. HasAtMost most v.items) }
    ensures fault { IfErr result (IsTooLong most output.items) }
{
    let bytes = output.len();
    if bytes > most {
        return Err(OutputFault::TooLong { bytes, most });
    }
    Ok(output)
}

impl<A: Allocator + Copy, J: Job<A>> Job<A> for WithinBytes<'_, J> {
    ghost use Rattle.tn_command.specs.JobForms.{job_within};

    type Outcome = J::Outcome;

    type Fault = OutputFault<J::Fault>;

    ghost view = { λ w. job_within w.most (J.view w.job.now) };

    ghost takes = { λ w picks. J.takes w.job.now picks };

    fn picks(&self, alloc: A) -> Result<Vec<u32, A>, PicksFault> {
        self.job.picks(alloc)
    }

    fn refusal_outcome(&self, alloc: A, refusal: Refusal) -> (J::Outcome, RefusalForm) {
        self.job.refusal_outcome(alloc, refusal)
    }

    fn succeeds(&self, outcome: &J::Outcome) -> bool {
        self.job.succeeds(outcome)
    }

    fn fault_of(&self, fault: RunFault) -> OutputFault<J::Fault> {
        OutputFault::Job(self.job.fault_of(fault))
    }
}

impl<A: Allocator + Copy, J: DirectJob<A>> DirectJob<A> for WithinBytes<'_, J> {
    ghost use Rattle.std.specs.Prelude.{IfErr, IfOk};
    ghost use Rattle.tn_program.specs.Views.{program_of};
    ghost use Rattle.tn_run.specs.Jobs.{IsOfNoEnd, IsProgramAnswer};
    ghost use Rattle.tn_command.specs.JobForms.{IsFaultWithin, job_within};

    fn answer(
        &self,
        alloc: A,
        picks: &[u32],
        program: &Program<A>,
    ) -> Result<(J::Outcome, Vec<u8, A>), OutputFault<J::Fault>>
        requires { J.takes self.now.job.now picks.now }
        ensures given { IfOk result (λ r. IsProgramAnswer (job_within self.now.most (J.view self.now.job.now))
            (program_of program.now) r.0 r.1.items) }
        ensures fault { IfErr result (IsOfNoEnd (job_within self.now.most (J.view self.now.job.now))) }
        ensures reason { IfErr result (IsFaultWithin self.now.most (J.view self.now.job.now) (program_of program.now)) }
    {
        let (outcome, output) = match self.job.answer_within(alloc, picks, program, self.most) {
            Ok(Some(answer)) => answer,
            Ok(None) => return Err(OutputFault::ListingsTooLong { most: self.most }),
            Err(fault) => return Err(OutputFault::Job(fault)),
        };
        match hold(output, self.most) {
            Ok(output) => Ok((outcome, output)),
            Err(fault) => Err(fault),
        }
    }
}

impl<A: Allocator + Copy, J: Command<A>> Command<A> for WithinBytes<'_, J> {
    ghost use Rattle.tn_command.specs.Notices.{output_fault_said};

    ghost flaw = { λ w outcome bytes flawed. J.flaw w.job.now outcome bytes flawed };

    ghost said = { output_fault_said J.said };

    fn command_fault(&self, fault: &OutputFault<J::Fault>) -> CommandFault {
        match fault {
            OutputFault::Job(fault) => self.job.command_fault(fault),
            OutputFault::TooLong { bytes, most } => CommandFault::Bytes {
                bytes: *bytes,
                most: *most,
            },
            OutputFault::ListingsTooLong { most } => CommandFault::Listings { most: *most },
        }
    }

    fn tell_outcome<R: Eprint + AllocGlobal>(
        &self,
        rt: &R,
        outcome: J::Outcome,
        script: NamedText<'_>,
    ) {
        self.job.tell_outcome(rt, outcome, script)
    }

    fn is_flawed(
        &self,
        alloc: A,
        outcome: &J::Outcome,
        script: NamedText<'_>,
    ) -> Result<bool, Denial> {
        self.job.is_flawed(alloc, outcome, script)
    }
}
