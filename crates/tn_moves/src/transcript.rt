// The transcript of a run by a plan.
ghost use Rattle.std.specs.Prelude.{◌≡◌, ◌<◌, ◌≤◌, IfOk, OnOk, IsErrOf};
ghost use Rattle.tn_program.specs.Views.{program_of};
ghost use Rattle.tn_trace.specs.Transcripts.{listing_bytes, transcript_of};
ghost use Rattle.tn_moves.specs.Plans.{plan_picks};

use crate::course::drive_within;
use crate::plan::Plan;
use std::alloc::Allocator;
use tn_program::Program;
use tn_trace::{Extent, Lines, MostBytes, Recorder, Transcript, TranscriptFault};

/// The transcript of the run by a plan, where its listings together have at most so many bytes. The node takes each
/// step once.
///
/// # Errors
///
/// TooLong as soon as they have more, after the move that made them so; OutOfMemory where memory was refused.
pub fn transcript_of_plan<A: Allocator + Copy>(
    alloc: A,
    program: &Program<A>,
    plan: &Plan<'_, A>,
    most: usize,
) -> Result<Transcript<A>, TranscriptFault>
    ensures run { let p = program_of program.now in IfOk result (λ t. t ≡ transcript_of p (plan_picks p plan.now)) }
    ensures within { let p = program_of program.now in OnOk result (listing_bytes p (plan_picks p plan.now) ≤ most) }
    ensures long { let p = program_of program.now in
        IsErrOf result TranscriptFault.TooLong → most < listing_bytes p (plan_picks p plan.now) }
{
    let Ok(recorder) = Recorder::<A, Lines<A>>::new(alloc, program) else {
        return Err(TranscriptFault::OutOfMemory);
    };
    let bound = MostBytes { bytes: most };
    let mut given = Vec::new(alloc);
    match drive_within(alloc, program, plan, recorder, &bound, &mut given) {
        Ok((run, Extent::All)) => Ok(Transcript::of_run(run)),
        Ok((_, Extent::TooMuch)) => Err(TranscriptFault::TooLong),
        Err(_) => Err(TranscriptFault::OutOfMemory),
    }
}
