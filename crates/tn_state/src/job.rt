// The state of a run that is asked for.
ghost use Rattle.std.specs.Prelude.{IfOk};
ghost use Rattle.tn_program.specs.Views.{program_of};
ghost use Rattle.tn_moves.specs.Schedules.{IsSpelledBy, schedule_seen};
ghost use Rattle.tn_run.specs.Jobs.{Meets};
ghost use Rattle.tn_state.specs.Requests.{IsShown, state_by};

use crate::answers::state_of;
use crate::request::{StateOutcome, StateRequest};
use std::alloc::{AllocError, Allocator};
use std::io::{Read, Write};
use tn_listing::PicksFault;
use tn_moves::MovesFault;
use tn_program::Program;
use tn_run::{DirectJob, Job, Refusal, RefusalForm, RunFault, RunRefusal, transact};
use tn_text::Watched;

/// What is written of a program's run by a schedule, whose text of picks spells these.
fn shown_state<A: Allocator + Copy>(
    alloc: A,
    program: &Program<A>,
    request: &StateRequest<'_>,
    picks: &[u32],
) -> Result<(StateOutcome, Vec<u8, A>), AllocError>
    requires { IsSpelledBy (schedule_seen request.now.schedule) picks.now }
    ensures { IfOk result (λ r. IsShown request.now (program_of program.now) r.0 r.1.items) }
{
    match request.schedule.plan(alloc, program, picks) {
        Ok(plan) => state_of(alloc, program, &plan, &request.question),
        Err(MovesFault::Refused(refusal)) => Ok((
            StateOutcome::Refused(RunRefusal::Moves(refusal)),
            Vec::new(alloc),
        )),
        Err(MovesFault::OutOfMemory) => Err(AllocError),
    }
}

impl<A: Allocator + Copy> Job<A> for StateRequest<'_> {
    ghost use Rattle.tn_moves.specs.Schedules.{IsSpelledBy, schedule_seen};
    ghost use Rattle.tn_state.specs.Requests.{state_by};

    type Outcome = StateOutcome;

    type Fault = RunFault;

    ghost view = { state_by };

    ghost takes = { λ request picks. IsSpelledBy (schedule_seen request.schedule) picks };

    fn picks(&self, alloc: A) -> Result<Vec<u32, A>, PicksFault> {
        self.schedule.picks_of_text(alloc)
    }

    fn refusal_outcome(&self, _alloc: A, refusal: Refusal) -> (StateOutcome, RefusalForm) {
        let outcome = StateOutcome::Refused(RunRefusal::Text(refusal));
        (outcome, RefusalForm::Line)
    }

    fn succeeds(&self, outcome: &StateOutcome) -> bool {
        match outcome {
            StateOutcome::State => true,
            StateOutcome::Refused(_) => false,
            StateOutcome::NoSession => false,
            StateOutcome::NoMove => false,
        }
    }

    fn fault_of(&self, fault: RunFault) -> RunFault {
        fault
    }
}

impl<A: Allocator + Copy> DirectJob<A> for StateRequest<'_> {
    fn answer(
        &self,
        alloc: A,
        picks: &[u32],
        program: &Program<A>,
    ) -> Result<(StateOutcome, Vec<u8, A>), RunFault> {
        match shown_state(alloc, program, self, picks) {
            Ok(answer) => Ok(answer),
            Err(_) => Err(RunFault::OutOfMemory),
        }
    }
}

/// Shows a state of the run of the script that the reader holds: writes the state after the move that is asked for, or
/// the line of the refusal, or nothing where the moves are refused, or the session or the move that is asked for isn't
/// there, as `tn_run::transact` says. Bad picks are found before anything is read.
pub fn show_state<A: Allocator + Copy, R: Read, W: Write>(
    alloc: A,
    reader: &mut Watched<R>,
    writer: &mut Watched<W>,
    request: &StateRequest<'_>,
) -> Result<StateOutcome, RunFault>
    ensures { Meets (state_by request.now) R.remaining reader.old reader.new W.contents writer.old writer.new result }
{
    transact(alloc, request, reader, writer)
}
