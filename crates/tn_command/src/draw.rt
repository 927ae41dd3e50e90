// The job of `draw`, and what is said of its outcome.
use crate::command::{Command, has_schedule_flaw, schedule_text};
use crate::moves_line::tell_run_refusal;
use crate::stderr::{NamedText, run_fault};
use std::alloc::Allocator;
use tn_notice::CommandFault;
use tn_picture::{DrawOutcome, DrawRequest};
use tn_run::{Denial, RunFault};

impl<A: Allocator + Copy> Command<A> for DrawRequest<'_> {
    ghost use Rattle.tn_command.specs.Flaws.{IsDrawnFlaw};
    ghost use Rattle.tn_command.specs.Notices.{run_fault_said};

    ghost flaw = { IsDrawnFlaw };

    ghost said = { run_fault_said };

    fn command_fault(&self, fault: &RunFault) -> CommandFault {
        run_fault(*fault)
    }

    fn tell_outcome<R: Eprint + AllocGlobal>(
        &self,
        rt: &R,
        outcome: DrawOutcome,
        script: NamedText<'_>,
    ) {
        match outcome {
            DrawOutcome::Drawn => {}
            DrawOutcome::Refused(refusal) => {
                tell_run_refusal(rt, refusal, script, schedule_text(&self.schedule));
            }
        }
    }

    fn is_flawed(
        &self,
        alloc: A,
        outcome: &DrawOutcome,
        script: NamedText<'_>,
    ) -> Result<bool, Denial> {
        match outcome {
            DrawOutcome::Drawn => has_schedule_flaw(alloc, script, &self.schedule),
            DrawOutcome::Refused(_) => Ok(false),
        }
    }
}
