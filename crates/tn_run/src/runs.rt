// A run: a script and its schedule in, an output out.
ghost use Rattle.std.specs.Prelude.{◌<◌, ◌≡◌, ◌≤◌, IfOk, OnOk, IsErrOf};
ghost use Rattle.def_run.specs.Listing.{program_output};
ghost use Rattle.tn_program.specs.Views.{program_of};
ghost use Rattle.tn_trace.specs.Transcripts.{listing_bytes};
ghost use Rattle.tn_moves.specs.Plans.{plan_picks};
ghost use Rattle.tn_moves.specs.Schedules.{IsSpelledBy, schedule_seen};
ghost use Rattle.tn_run.specs.Answers.{IsListedOutput, run_by};
ghost use Rattle.tn_run.specs.Jobs.{GivesMore, Meets};

use crate::fault::RunFault;
use crate::job::{DirectJob, Job, transact};
use crate::outcome::{Outcome, RunRefusal, is_listed};
use crate::refusal_form::RefusalForm;
use std::alloc::Allocator;
use std::io::{Read, Write};
use tn_listing::{PicksFault, transcript_output};
use tn_moves::{MovesFault, Plan, Schedule, transcript_of_plan};
use tn_program::Program;
use tn_refusal::Refusal;
use tn_text::Watched;
use tn_trace::TranscriptFault;

/// The output of a program by a plan, where its listings have at most so many bytes.
fn plan_output<A: Allocator + Copy>(
    alloc: A,
    program: &Program<A>,
    plan: &Plan<'_, A>,
    most: usize,
) -> Result<Vec<u8, A>, TranscriptFault>
    ensures output { let p = program_of program.now in
        IfOk result (λ v. v.items ≡ program_output p (plan_picks p plan.now)) }
    ensures within { let p = program_of program.now in OnOk result (listing_bytes p (plan_picks p plan.now) ≤ most) }
    ensures long { let p = program_of program.now in
        IsErrOf result TranscriptFault.TooLong → most < listing_bytes p (plan_picks p plan.now) }
{
    let transcript = transcript_of_plan(alloc, program, plan, most)?;
    match transcript_output(alloc, transcript, program) {
        Ok(output) => Ok(output),
        Err(_) => Err(TranscriptFault::OutOfMemory),
    }
}

/// What is written of a program by a schedule, whose text of picks spells these, where its listings have at most so
/// many bytes.
fn schedule_output<A: Allocator + Copy>(
    alloc: A,
    program: &Program<A>,
    schedule: &Schedule<'_>,
    picks: &[u32],
    most: usize,
) -> Result<(Outcome, Vec<u8, A>), TranscriptFault>
    requires { IsSpelledBy (schedule_seen schedule.now) picks.now }
    ensures listed { IfOk result (λ r.
        IsListedOutput (schedule_seen schedule.now) (program_of program.now) r.0 r.1.items) }
    ensures long { IsErrOf result TranscriptFault.TooLong →
        GivesMore most (run_by schedule.now) (program_of program.now) }
{
    match schedule.plan(alloc, program, picks) {
        Ok(plan) => Ok((Outcome::Listed, plan_output(alloc, program, &plan, most)?)),
        Err(MovesFault::Refused(refusal)) => Ok((
            Outcome::Refused(RunRefusal::Moves(refusal)),
            Vec::new(alloc),
        )),
        Err(MovesFault::OutOfMemory) => Err(TranscriptFault::OutOfMemory),
    }
}

impl<A: Allocator + Copy> Job<A> for Schedule<'_> {
    ghost use Rattle.tn_moves.specs.Schedules.{IsSpelledBy, schedule_seen};
    ghost use Rattle.tn_run.specs.Answers.{run_by};

    type Outcome = Outcome;

    type Fault = RunFault;

    ghost view = { run_by };

    ghost takes = { λ schedule picks. IsSpelledBy (schedule_seen schedule) picks };

    fn picks(&self, alloc: A) -> Result<Vec<u32, A>, PicksFault> {
        self.picks_of_text(alloc)
    }

    fn refusal_outcome(&self, _alloc: A, refusal: Refusal) -> (Outcome, RefusalForm) {
        let outcome = Outcome::Refused(RunRefusal::Text(refusal));
        (outcome, RefusalForm::Line)
    }

    fn succeeds(&self, outcome: &Outcome) -> bool {
        is_listed(*outcome)
    }

    fn fault_of(&self, fault: RunFault) -> RunFault {
        fault
    }
}

impl<A: Allocator + Copy> DirectJob<A> for Schedule<'_> {
    fn answer(
        &self,
        alloc: A,
        picks: &[u32],
        program: &Program<A>,
    ) -> Result<(Outcome, Vec<u8, A>), RunFault> {
        match schedule_output(alloc, program, self, picks, usize::MAX) {
            Ok(answer) => Ok(answer),
            Err(_) => Err(RunFault::OutOfMemory),
        }
    }

    fn answer_within(
        &self,
        alloc: A,
        picks: &[u32],
        program: &Program<A>,
        most: usize,
    ) -> Result<Option<(Outcome, Vec<u8, A>)>, RunFault> {
        match schedule_output(alloc, program, self, picks, most) {
            Ok(answer) => Ok(Some(answer)),
            Err(TranscriptFault::TooLong) => Ok(None),
            Err(TranscriptFault::OutOfMemory) => Err(RunFault::OutOfMemory),
        }
    }
}

/// Runs the script that the reader holds by the picks of the schedule, and writes the output, or the line of
/// the refusal, or nothing where its moves are refused, as `transact` says. Bad picks are found before
/// anything is read.
pub fn run<A: Allocator + Copy, R: Read, W: Write>(
    alloc: A,
    reader: &mut Watched<R>,
    writer: &mut Watched<W>,
    schedule: Schedule<'_>,
) -> Result<Outcome, RunFault>
    ensures { Meets (run_by schedule.entry) R.remaining reader.old reader.new W.contents writer.old writer.new result }
{
    transact(alloc, &schedule, reader, writer)
}
