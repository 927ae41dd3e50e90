// A run by a schedule, with its notes or without.
ghost use Rattle.std.specs.Prelude.{◌≡◌, ◌<◌, false, IfOk, IsErrOf};
ghost use Rattle.def_explain.specs.Remarks.{has_remarks};
ghost use Rattle.tn_program.specs.Views.{program_of};
ghost use Rattle.tn_trace.specs.Transcripts.{listing_bytes};
ghost use Rattle.tn_listing.specs.Outputs.{OnItsPicks};
ghost use Rattle.tn_moves.specs.Plans.{plan_picks};
ghost use Rattle.tn_moves.specs.Schedules.{IsSpelledBy, schedule_seen};
ghost use Rattle.tn_run.specs.Jobs.{GivesMore};
ghost use Rattle.tn_replay.specs.Notes.{AreNotes, AreNotesWanted, IsListedBy, IsReplayed, replay_by};

use crate::note::{RunNotes, node_note};
use crate::remark_observer::program_has_remarks;
use crate::reply_lines::has_reason_line;
use crate::run_remarks::front_of_picks;
use crate::traps::has_traps;
use std::alloc::{AllocError, Allocator};
use tn_listing::{PicksFault, transcript_output};
use tn_moves::{MovesFault, Plan, Schedule, transcript_of_plan};
use tn_program::Program;
use tn_run::{DirectJob, Job, Refusal, RefusalForm, RunFault, RunRefusal};
use tn_trace::{Transcript, TranscriptFault};

/// A run by a schedule, with its notes or without.
#[derive(Clone, Copy)]
pub struct Replay<'a> {
    pub schedule: Schedule<'a>,
    /// Whether its outcome has the notes of the run.
    pub has_notes: bool,
    /// Whether the notes are for the exit status alone.
    pub quiet: bool,
}

/// What was written.
#[derive(Clone, Copy, Debug, PartialEq, Eq, Drop)]
pub enum ReplayOutcome {
    /// The output of an accepted script, whose run has these notes where they are wanted.
    Listed(Option<RunNotes>),
    /// What the refusal says.
    Refused(RunRefusal),
}

/// Whether something can be remarked of the run of this transcript: a line of the replies begins as that of a command
/// that isn't done, or a specification has a trap.
fn can_have_remarks<A: Allocator + Copy>(
    alloc: A,
    program: &Program<A>,
    transcript: &Transcript<A>,
) -> Result<bool, AllocError>
    ensures { OnItsPicks program.now transcript.now
        (λ p picks. IfOk result (λ b. b ≡ false → false ≡ has_remarks p picks)) }
{
    if has_reason_line(transcript.replies()) {
        return Ok(true);
    }
    has_traps(alloc, program)
}

/// Whether something is remarked of the run of this transcript. Where nothing can be nothing is run, and else up to the
/// last command.
fn has_remarks<A: Allocator + Copy>(
    alloc: A,
    program: &Program<A>,
    transcript: &Transcript<A>,
) -> Result<bool, AllocError>
    ensures { OnItsPicks program.now transcript.now (λ p picks. IfOk result (λ b. b ≡ has_remarks p picks)) }
{
    let is_possible = can_have_remarks(alloc, program, transcript)?;
    if !is_possible {
        return Ok(false);
    }
    program_has_remarks(alloc, program, front_of_picks(transcript.journal()))
}

/// The notes of the run of this transcript.
///
/// # Errors
///
/// AllocError where memory was refused.
pub fn notes_of<A: Allocator + Copy>(
    alloc: A,
    program: &Program<A>,
    transcript: &Transcript<A>,
) -> Result<RunNotes, AllocError>
    ensures { OnItsPicks program.now transcript.now (λ p picks. IfOk result (AreNotes p picks)) }
{
    Ok(RunNotes {
        node: node_note(alloc, program, transcript.journal())?,
        has_remarks: has_remarks(alloc, program, transcript)?,
    })
}

/// The notes of the run of this transcript, where they are wanted.
fn notes_wanted<A: Allocator + Copy>(
    alloc: A,
    program: &Program<A>,
    transcript: &Transcript<A>,
    has_notes: bool,
) -> Result<Option<RunNotes>, AllocError>
    ensures { OnItsPicks program.now transcript.now (λ p picks. IfOk result (AreNotesWanted has_notes p picks)) }
{
    if !has_notes {
        return Ok(None);
    }
    Ok(Some(notes_of(alloc, program, transcript)?))
}

/// The output of a program by a plan, and the notes of its run where they are wanted, where its listings have at most
/// so many bytes.
fn listing<A: Allocator + Copy>(
    alloc: A,
    program: &Program<A>,
    plan: &Plan<'_, A>,
    has_notes: bool,
    most: usize,
) -> Result<(ReplayOutcome, Vec<u8, A>), TranscriptFault>
    ensures listed { let p = program_of program.now in
        IfOk result (λ r. IsListedBy has_notes p (plan_picks p plan.now) r.0 r.1.items) }
    ensures long { let p = program_of program.now in
        IsErrOf result TranscriptFault.TooLong → most < listing_bytes p (plan_picks p plan.now) }
{
    let transcript = transcript_of_plan(alloc, program, plan, most)?;
    let Ok(notes) = notes_wanted(alloc, program, &transcript, has_notes) else {
        return Err(TranscriptFault::OutOfMemory);
    };
    let Ok(output) = transcript_output(alloc, transcript, program) else {
        return Err(TranscriptFault::OutOfMemory);
    };
    Ok((ReplayOutcome::Listed(notes), output))
}

/// What is written of a program by a schedule, whose text of picks spells these, where its listings have at most so
/// many bytes.
fn outcome_of<A: Allocator + Copy>(
    alloc: A,
    program: &Program<A>,
    job: &Replay<'_>,
    picks: &[u32],
    most: usize,
) -> Result<(ReplayOutcome, Vec<u8, A>), TranscriptFault>
    requires { IsSpelledBy (schedule_seen job.now.schedule) picks.now }
    ensures listed { IfOk result (λ r. IsReplayed job.now (program_of program.now) r.0 r.1.items) }
    ensures long { IsErrOf result TranscriptFault.TooLong →
        GivesMore most (replay_by job.now) (program_of program.now) }
{
    match job.schedule.plan(alloc, program, picks) {
        Ok(plan) => listing(alloc, program, &plan, job.has_notes, most),
        Err(MovesFault::Refused(refusal)) => Ok((
            ReplayOutcome::Refused(RunRefusal::Moves(refusal)),
            Vec::new(alloc),
        )),
        Err(MovesFault::OutOfMemory) => Err(TranscriptFault::OutOfMemory),
    }
}

impl<A: Allocator + Copy> Job<A> for Replay<'_> {
    ghost use Rattle.tn_moves.specs.Schedules.{IsSpelledBy, schedule_seen};
    ghost use Rattle.tn_replay.specs.Notes.{replay_by};

    type Outcome = ReplayOutcome;

    type Fault = RunFault;

    ghost view = { replay_by };

    ghost takes = { λ job picks. IsSpelledBy (schedule_seen job.schedule) picks };

    fn picks(&self, alloc: A) -> Result<Vec<u32, A>, PicksFault> {
        self.schedule.picks_of_text(alloc)
    }

    fn refusal_outcome(&self, _alloc: A, refusal: Refusal) -> (ReplayOutcome, RefusalForm) {
        let outcome = ReplayOutcome::Refused(RunRefusal::Text(refusal));
        (outcome, RefusalForm::Line)
    }

    fn succeeds(&self, outcome: &ReplayOutcome) -> bool {
        match outcome {
            ReplayOutcome::Listed(_) => true,
            ReplayOutcome::Refused(_) => false,
        }
    }

    fn fault_of(&self, fault: RunFault) -> RunFault {
        fault
    }
}

impl<A: Allocator + Copy> DirectJob<A> for Replay<'_> {
    fn answer(
        &self,
        alloc: A,
        picks: &[u32],
        program: &Program<A>,
    ) -> Result<(ReplayOutcome, Vec<u8, A>), RunFault> {
        match outcome_of(alloc, program, self, picks, usize::MAX) {
            Ok(answer) => Ok(answer),
            Err(_) => Err(RunFault::OutOfMemory),
        }
    }

    fn answer_within(
        &self,
        alloc: A,
        picks: &[u32],
        program: &Program<A>,
        most: usize,
    ) -> Result<Option<(ReplayOutcome, Vec<u8, A>)>, RunFault> {
        match outcome_of(alloc, program, self, picks, most) {
            Ok(answer) => Ok(Some(answer)),
            Err(TranscriptFault::TooLong) => Ok(None),
            Err(TranscriptFault::OutOfMemory) => Err(RunFault::OutOfMemory),
        }
    }
}
