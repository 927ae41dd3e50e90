// All schedules of a script's program, explored.
ghost use Rattle.std.specs.Prelude.{◌≡◌, IfOk};
ghost use Rattle.tn_program.specs.Views.{program_of};
ghost use Rattle.tn_moves.specs.Schedules.{IsSpelledBy, schedule_seen};
ghost use Rattle.tn_run.specs.Jobs.{Meets};
ghost use Rattle.tn_exploration.specs.Requests.{IsExploration, IsExplorationFrom, explore_by, lacks_session};
ghost use Rattle.tn_exploration.specs.Requests.{refusals_in};

use crate::request::{ExploreOutcome, ExploreRequest};
use crate::searches::put_groups;
use crate::sessions::places_of;
use std::alloc::{AllocError, Allocator};
use std::io::{Read, Write};
use tn_answers::AnswerForm;
use tn_listing::PicksFault;
use tn_moves::{MovesFault, moves_of_plan};
use tn_program::Program;
use tn_run::{DirectJob, Job, Refusal, RefusalForm, RunFault, RunRefusal, transact};
use tn_text::Watched;

/// Whether a session is asked for that the control list doesn't create: none of that name has a place.
fn lacks_session(request: &ExploreRequest<'_>, places: &[usize]) -> bool
    ensures { result ≡ lacks_session request.now places.now }
{
    request.session.is_some() && places.is_empty()
}

/// What is written of the schedules that begin with a journal.
fn exploration_from<A: Allocator + Copy>(
    alloc: A,
    program: &Program<A>,
    request: &ExploreRequest<'_>,
    before: &[u32],
) -> Result<(ExploreOutcome, Vec<u8, A>), AllocError>
    ensures { IfOk result (λ r. IsExplorationFrom request.now (program_of program.now) before.now r.0 r.1.items) }
{
    let places = places_of(alloc, program, request.session)?;
    let mut text = Vec::new(alloc);
    if lacks_session(request, &places) {
        return Ok((ExploreOutcome::NoSession, text));
    }
    let end = put_groups(alloc, program, request, before, &places, &mut text)?;
    if end.is_unmet {
        return Ok((ExploreOutcome::Unmet, text));
    }
    if end.is_settled {
        Ok((ExploreOutcome::Complete, text))
    } else {
        Ok((ExploreOutcome::Incomplete, text))
    }
}

/// What is written of the schedules that begin as the request says, whose text of picks spells these.
fn outcome_of<A: Allocator + Copy>(
    alloc: A,
    program: &Program<A>,
    request: &ExploreRequest<'_>,
    picks: &[u32],
) -> Result<(ExploreOutcome, Vec<u8, A>), AllocError>
    requires { IsSpelledBy (schedule_seen request.now.schedule) picks.now }
    ensures { IfOk result (λ r. IsExploration request.now (program_of program.now) r.0 r.1.items) }
{
    match request.schedule.plan(alloc, program, picks) {
        Ok(plan) => {
            let before = moves_of_plan(alloc, program, &plan)?;
            exploration_from(alloc, program, request, &before)
        }
        Err(MovesFault::Refused(refusal)) => Ok((
            ExploreOutcome::Refused(RunRefusal::Moves(refusal)),
            Vec::new(alloc),
        )),
        Err(MovesFault::OutOfMemory) => Err(AllocError),
    }
}

/// What is written for a refusal where an answer has this form.
fn refusal_form_in(form: AnswerForm) -> RefusalForm
    ensures { result ≡ refusals_in form }
{
    match form {
        AnswerForm::Plain | AnswerForm::Summary => RefusalForm::Line,
        AnswerForm::Json => RefusalForm::Json,
    }
}

impl<A: Allocator + Copy> Job<A> for ExploreRequest<'_> {
    ghost use Rattle.tn_moves.specs.Schedules.{IsSpelledBy, schedule_seen};
    ghost use Rattle.tn_exploration.specs.Requests.{explore_by};

    type Outcome = ExploreOutcome;

    type Fault = RunFault;

    ghost view = { explore_by };

    ghost takes = { λ request picks. IsSpelledBy (schedule_seen request.schedule) picks };

    fn picks(&self, alloc: A) -> Result<Vec<u32, A>, PicksFault> {
        self.schedule.picks_of_text(alloc)
    }

    fn refusal_outcome(&self, _alloc: A, refusal: Refusal) -> (ExploreOutcome, RefusalForm) {
        let outcome = ExploreOutcome::Refused(RunRefusal::Text(refusal));
        (outcome, refusal_form_in(self.form))
    }

    fn succeeds(&self, outcome: &ExploreOutcome) -> bool {
        match outcome {
            ExploreOutcome::Complete => true,
            ExploreOutcome::Incomplete => true,
            ExploreOutcome::Unmet => true,
            ExploreOutcome::NoSession => false,
            ExploreOutcome::Refused(_) => false,
        }
    }

    fn fault_of(&self, fault: RunFault) -> RunFault {
        fault
    }
}

impl<A: Allocator + Copy> DirectJob<A> for ExploreRequest<'_> {
    fn answer(
        &self,
        alloc: A,
        picks: &[u32],
        program: &Program<A>,
    ) -> Result<(ExploreOutcome, Vec<u8, A>), RunFault> {
        match outcome_of(alloc, program, self, picks) {
            Ok(answer) => Ok(answer),
            Err(_) => Err(RunFault::OutOfMemory),
        }
    }
}

/// Explores all schedules of the script that the reader holds: writes the listings that they give, the words for the
/// patterns, or whether the trace is possible; or the refusal in its form, or nothing where the moves are refused, as
/// `tn_run::transact` says.
pub fn explore<A: Allocator + Copy, R: Read, W: Write>(
    alloc: A,
    reader: &mut Watched<R>,
    writer: &mut Watched<W>,
    request: &ExploreRequest<'_>,
) -> Result<ExploreOutcome, RunFault>
    ensures { Meets (explore_by request.now) R.remaining reader.old reader.new W.contents writer.old writer.new result }
{
    transact(alloc, request, reader, writer)
}
