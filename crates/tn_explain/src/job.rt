// A run that is explained.
ghost use Rattle.std.specs.Prelude.{IfOk};
ghost use Rattle.tn_program.specs.Views.{program_of};
ghost use Rattle.tn_moves.specs.Schedules.{IsSpelledBy, schedule_seen};
ghost use Rattle.tn_run.specs.Jobs.{Meets};
ghost use Rattle.tn_explain.specs.Accounts.{IsExplanation, explain_by};

use crate::answers::account_of;
use crate::request::{ExplainOutcome, ExplainRequest};
use std::alloc::{AllocError, Allocator};
use std::io::{Read, Write};
use tn_listing::PicksFault;
use tn_moves::MovesFault;
use tn_program::Program;
use tn_run::{DirectJob, Job, Refusal, RefusalForm, RunFault, RunRefusal, transact};
use tn_text::Watched;

/// What is written of a program's run by a schedule, whose text of picks spells these.
fn explanation<A: Allocator + Copy>(
    alloc: A,
    program: &Program<A>,
    request: &ExplainRequest<'_>,
    picks: &[u32],
) -> Result<(ExplainOutcome, Vec<u8, A>), AllocError>
    requires { IsSpelledBy (schedule_seen request.now.schedule) picks.now }
    ensures { IfOk result (λ r. IsExplanation request.now (program_of program.now) r.0 r.1.items) }
{
    match request.schedule.plan(alloc, program, picks) {
        Ok(plan) => account_of(alloc, program, &plan, &request.filter, request.message),
        Err(MovesFault::Refused(refusal)) => Ok((
            ExplainOutcome::Refused(RunRefusal::Moves(refusal)),
            Vec::new(alloc),
        )),
        Err(MovesFault::OutOfMemory) => Err(AllocError),
    }
}

impl<A: Allocator + Copy> Job<A> for ExplainRequest<'_> {
    ghost use Rattle.tn_moves.specs.Schedules.{IsSpelledBy, schedule_seen};
    ghost use Rattle.tn_explain.specs.Accounts.{explain_by};

    type Outcome = ExplainOutcome;

    type Fault = RunFault;

    ghost view = { explain_by };

    ghost takes = { λ request picks. IsSpelledBy (schedule_seen request.schedule) picks };

    fn picks(&self, alloc: A) -> Result<Vec<u32, A>, PicksFault> {
        self.schedule.picks_of_text(alloc)
    }

    fn refusal_outcome(&self, _alloc: A, refusal: Refusal) -> (ExplainOutcome, RefusalForm) {
        let outcome = ExplainOutcome::Refused(RunRefusal::Text(refusal));
        (outcome, RefusalForm::Line)
    }

    fn succeeds(&self, outcome: &ExplainOutcome) -> bool {
        match outcome {
            ExplainOutcome::Account => true,
            ExplainOutcome::Refused(_) => false,
            ExplainOutcome::NoSession => false,
            ExplainOutcome::NoMove => false,
            ExplainOutcome::NoDifference => true,
            ExplainOutcome::NoMessage => false,
        }
    }

    fn fault_of(&self, fault: RunFault) -> RunFault {
        fault
    }
}

impl<A: Allocator + Copy> DirectJob<A> for ExplainRequest<'_> {
    fn answer(
        &self,
        alloc: A,
        picks: &[u32],
        program: &Program<A>,
    ) -> Result<(ExplainOutcome, Vec<u8, A>), RunFault> {
        match explanation(alloc, program, self, picks) {
            Ok(answer) => Ok(answer),
            Err(_) => Err(RunFault::OutOfMemory),
        }
    }
}

/// Explains the run of the script that the reader holds: writes what each of its moves showed and what each
/// session made of it, or the line of the refusal, or nothing where the moves are refused, or the session, the move or
/// the message that is asked for isn't there, as `tn_run::transact` says. Bad picks are found before anything is read.
pub fn explain<A: Allocator + Copy, R: Read, W: Write>(
    alloc: A,
    reader: &mut Watched<R>,
    writer: &mut Watched<W>,
    request: &ExplainRequest<'_>,
) -> Result<ExplainOutcome, RunFault>
    ensures { Meets (explain_by request.now) R.remaining reader.old reader.new W.contents writer.old writer.new result }
{
    transact(alloc, request, reader, writer)
}
