// The lines of what is remarked of a run.
ghost use Rattle.std.specs.Prelude.{◌≡◌, IfOk};
ghost use Rattle.def_explain.specs.Remarks.{remarks, has_remarks};
ghost use Rattle.tn_program.specs.Views.{program_of};
ghost use Rattle.tn_moves.specs.Schedules.{AreMovesOf, OfPicks, schedule_seen};
ghost use Rattle.tn_run.specs.Jobs.{OfScript};
ghost use Rattle.tn_replay.specs.RemarkLines.{IsFrontOfPicks, AreRemarkLines};

use crate::command_starts::command_starts;
use crate::remark_observer::{command_texts, program_has_remarks};
use std::alloc::{AllocError, Allocator};
use tn_listing::PicksFault;
use tn_moves::{MovesFault, Schedule, moves_of_plan};
use tn_program::Program;
use tn_remark::put_lines;
use tn_run::{Denial, Refusal, accept};
use tn_text::MAX_TEXT;

/// The picks up to the last that is a command.
pub(crate) fn front_of_picks(picks: &[u32]) -> &[u32]
    ensures { IsFrontOfPicks picks.now result.now }
{
    let mut end = picks.len();
    while end > 0 {
        if picks[end - 1] == 0 {
            return &picks[..end];
        }
        end -= 1;
    }
    &picks[..0]
}

/// The lines of what is remarked of the program's run by these picks, where this is its text.
fn program_lines<A: Allocator + Copy>(
    alloc: A,
    name: &str,
    text: &[u8],
    program: &Program<A>,
    picks: &[u32],
) -> Result<Vec<u8, A>, AllocError>
    ensures { IfOk result (λ v. AreRemarkLines name.now text.now (remarks (program_of program.now) picks.now) v.items) }
{
    let mut out = Vec::new(alloc);
    if text.len() > MAX_TEXT {
        return Ok(out);
    }
    let texts = command_texts(alloc, program, front_of_picks(picks))?;
    let Some(starts) = command_starts(alloc, text)? else {
        return Ok(out);
    };
    put_lines(name, text, &starts, &texts, &mut out)?;
    Ok(out)
}

/// The lines of what is remarked of the run of a whole text with this name by these picks: of each command that is
/// refused, matches no function or has a trap where it begins, its number, its reply and why it is this one.
///
/// # Errors
///
/// The denial of the text, which is no script; or refused memory.
pub fn remark_lines<A: Allocator + Copy>(
    alloc: A,
    name: &str,
    text: &[u8],
    picks: &[u32],
) -> Result<Vec<u8, A>, Denial>
    ensures { IfOk result (λ v.
        OfScript text.now (λ p. AreRemarkLines name.now text.now (remarks p picks.now) v.items)) }
{
    let program = accept(alloc, text)?;
    match program_lines(alloc, name, text, &program, picks) {
        Ok(lines) => Ok(lines),
        Err(_) => Err(Denial::OutOfMemory),
    }
}

/// The picks of the program's run by a schedule that move.
fn schedule_moves<A: Allocator + Copy>(
    alloc: A,
    program: &Program<A>,
    schedule: &Schedule<'_>,
) -> Result<Vec<u32, A>, Denial>
    ensures { IfOk result (λ v. AreMovesOf (schedule_seen schedule.now) (program_of program.now) v.items) }
{
    let picks = match schedule.picks_of_text(alloc) {
        Ok(picks) => picks,
        Err(PicksFault::BadPicks) => return Err(Denial::Refused(Refusal::BadPicks)),
        Err(PicksFault::OutOfMemory) => return Err(Denial::OutOfMemory),
    };
    let plan = match schedule.plan(alloc, program, &picks) {
        Ok(plan) => plan,
        Err(MovesFault::Refused(_)) => return Err(Denial::Refused(Refusal::BadPicks)),
        Err(MovesFault::OutOfMemory) => return Err(Denial::OutOfMemory),
    };
    match moves_of_plan(alloc, program, &plan) {
        Ok(moves) => Ok(moves),
        Err(_) => Err(Denial::OutOfMemory),
    }
}

/// The same as `remark_lines` of the run by a schedule.
///
/// # Errors
///
/// The denial of the text, which is no script, or refusal 20 where the schedule's text is refused; or refused memory.
pub fn schedule_remark_lines<A: Allocator + Copy>(
    alloc: A,
    name: &str,
    text: &[u8],
    schedule: &Schedule<'_>,
) -> Result<Vec<u8, A>, Denial>
    ensures { IfOk result (λ v. OfScript text.now (λ p. OfPicks (schedule_seen schedule.now) p
        (λ picks. AreRemarkLines name.now text.now (remarks p picks) v.items))) }
{
    let program = accept(alloc, text)?;
    let picks = schedule_moves(alloc, &program, schedule)?;
    match program_lines(alloc, name, text, &program, &picks) {
        Ok(lines) => Ok(lines),
        Err(_) => Err(Denial::OutOfMemory),
    }
}

/// Whether a command of the run of a whole text by these picks is refused, matches no function or has a trap.
///
/// # Errors
///
/// The denial of the text, which is no script; or refused memory.
pub fn text_has_remarks<A: Allocator + Copy>(
    alloc: A,
    text: &[u8],
    picks: &[u32],
) -> Result<bool, Denial>
    ensures { IfOk result (λ b. OfScript text.now (λ p. b ≡ has_remarks p picks.now)) }
{
    let program = accept(alloc, text)?;
    match program_has_remarks(alloc, &program, front_of_picks(picks)) {
        Ok(has_remarks) => Ok(has_remarks),
        Err(_) => Err(Denial::OutOfMemory),
    }
}

/// The same of the run by a schedule.
///
/// # Errors
///
/// The denial of the text, which is no script, or refusal 20 where the schedule's text is refused; or refused memory.
pub fn schedule_has_remarks<A: Allocator + Copy>(
    alloc: A,
    text: &[u8],
    schedule: &Schedule<'_>,
) -> Result<bool, Denial>
    ensures { IfOk result (λ b. OfScript text.now (λ p. OfPicks (schedule_seen schedule.now) p
        (λ picks. b ≡ has_remarks p picks))) }
{
    let program = accept(alloc, text)?;
    let picks = schedule_moves(alloc, &program, schedule)?;
    match program_has_remarks(alloc, &program, front_of_picks(&picks)) {
        Ok(has_remarks) => Ok(has_remarks),
        Err(_) => Err(Denial::OutOfMemory),
    }
}
