// A run that is drawn.
ghost use Rattle.std.specs.Prelude.{◌≡◌, IfOk};
ghost use Rattle.tn_program.specs.Views.{program_of};
ghost use Rattle.tn_moves.specs.Plans.{plan_picks};
ghost use Rattle.tn_moves.specs.Schedules.{IsSpelledBy, schedule_seen};
ghost use Rattle.tn_run.specs.Jobs.{Meets};
ghost use Rattle.tn_picture.specs.Requests.{IsDrawn, draw_by, picture_text};

use crate::picture::picture_of;
use crate::request::{DrawOutcome, DrawRequest, PictureFormat};
use std::alloc::{AllocError, Allocator};
use std::io::{Read, Write};
use tn_listing::PicksFault;
use tn_moves::{MovesFault, Plan};
use tn_program::Program;
use tn_run::{DirectJob, Job, Refusal, RefusalForm, RunFault, RunRefusal, transact};
use tn_text::Watched;

/// The text of the picture of the program's run by a plan.
///
/// # Errors
///
/// AllocError where memory was refused.
pub fn picture_text<A: Allocator + Copy>(
    alloc: A,
    program: &Program<A>,
    plan: &Plan<'_, A>,
    format: PictureFormat,
) -> Result<Vec<u8, A>, AllocError>
    ensures { let p = program_of program.now in
        IfOk result (λ v. v.items ≡ picture_text format p (plan_picks p plan.now)) }
{
    let picture = picture_of(alloc, program, plan)?;
    format.text_of(alloc, &picture)
}

/// What is written of a program's run by a schedule, whose text of picks spells these.
fn outcome_of<A: Allocator + Copy>(
    alloc: A,
    program: &Program<A>,
    request: &DrawRequest<'_>,
    picks: &[u32],
) -> Result<(DrawOutcome, Vec<u8, A>), AllocError>
    requires { IsSpelledBy (schedule_seen request.now.schedule) picks.now }
    ensures { IfOk result (λ r. IsDrawn request.now (program_of program.now) r.0 r.1.items) }
{
    match request.schedule.plan(alloc, program, picks) {
        Ok(plan) => Ok((
            DrawOutcome::Drawn,
            picture_text(alloc, program, &plan, request.format)?,
        )),
        Err(MovesFault::Refused(refusal)) => Ok((
            DrawOutcome::Refused(RunRefusal::Moves(refusal)),
            Vec::new(alloc),
        )),
        Err(MovesFault::OutOfMemory) => Err(AllocError),
    }
}

impl<A: Allocator + Copy> Job<A> for DrawRequest<'_> {
    ghost use Rattle.tn_moves.specs.Schedules.{IsSpelledBy, schedule_seen};
    ghost use Rattle.tn_picture.specs.Requests.{draw_by};

    type Outcome = DrawOutcome;

    type Fault = RunFault;

    ghost view = { draw_by };

    ghost takes = { λ request picks. IsSpelledBy (schedule_seen request.schedule) picks };

    fn picks(&self, alloc: A) -> Result<Vec<u32, A>, PicksFault> {
        self.schedule.picks_of_text(alloc)
    }

    fn refusal_outcome(&self, _alloc: A, refusal: Refusal) -> (DrawOutcome, RefusalForm) {
        let outcome = DrawOutcome::Refused(RunRefusal::Text(refusal));
        (outcome, RefusalForm::Nothing)
    }

    fn succeeds(&self, outcome: &DrawOutcome) -> bool {
        match outcome {
            DrawOutcome::Drawn => true,
            DrawOutcome::Refused(_) => false,
        }
    }

    fn fault_of(&self, fault: RunFault) -> RunFault {
        fault
    }
}

impl<A: Allocator + Copy> DirectJob<A> for DrawRequest<'_> {
    fn answer(
        &self,
        alloc: A,
        picks: &[u32],
        program: &Program<A>,
    ) -> Result<(DrawOutcome, Vec<u8, A>), RunFault> {
        match outcome_of(alloc, program, self, picks) {
            Ok(answer) => Ok(answer),
            Err(_) => Err(RunFault::OutOfMemory),
        }
    }
}

/// Draws the run of the script that the reader holds: writes its picture, or nothing where the script, the picks or the
/// moves are refused, as `tn_run::transact` says. Bad picks are found before anything is read.
pub fn draw<A: Allocator + Copy, R: Read, W: Write>(
    alloc: A,
    reader: &mut Watched<R>,
    writer: &mut Watched<W>,
    request: &DrawRequest<'_>,
) -> Result<DrawOutcome, RunFault>
    ensures { Meets (draw_by request.now) R.remaining reader.old reader.new W.contents writer.old writer.new result }
{
    transact(alloc, request, reader, writer)
}
