// The moves of the messages of a run.
ghost use Rattle.std.specs.Prelude.{◌≡◌, IfOk, [], map};
ghost use Rattle.def_formats.specs.MessageMoves.{moves_of_messages};
ghost use Rattle.tn_program.specs.Views.{program_of};
ghost use Rattle.tn_message_moves.specs.Tallies.{tallies_seen};

use crate::counter::MoveCounter;
use crate::tally::Tally;
use std::alloc::{AllocError, Allocator};
use tn_program::Program;
use tn_trace::{JOURNAL, Run, Slot};

/// No moves yet, of each session.
fn no_moves<A: Allocator + Copy>(
    alloc: A,
    slots: &Vec<Slot<A, Tally>, A>,
) -> Result<Vec<Vec<u32, A>, A>, AllocError>
    ensures { IfOk result (λ v. tallies_seen v.items ≡ map (λ s. []) slots.now.items) }
{
    let mut moves = Vec::new(alloc);
    while moves.len() < slots.len() {
        moves.push(Vec::new(alloc))?;
    }
    Ok(moves)
}

/// Of each session of a program the number of the move of each of its messages, counted from 1, in the run by some
/// picks.
///
/// # Errors
///
/// AllocError where memory was refused.
pub fn message_moves<A: Allocator + Copy>(
    alloc: A,
    program: &Program<A>,
    picks: &[u32],
) -> Result<Vec<Vec<u32, A>, A>, AllocError>
    ensures { IfOk result (λ v. tallies_seen v.items ≡ moves_of_messages (program_of program.now) picks.now) }
{
    let counter = MoveCounter::new(alloc, program)?;
    let mut moves = no_moves(alloc, &counter.recorder.slots)?;
    let mut run = Run::new(alloc, program, counter, JOURNAL)?;
    run.take_all(program, picks, &mut moves)?;
    Ok(moves)
}
