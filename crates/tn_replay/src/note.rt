// How many moves of a run a running node does otherwise.
ghost use Rattle.std.specs.Prelude.{◌≡◌, IfOk};
ghost use Rattle.std.specs.Option.{option_map};
ghost use Rattle.def_running_node.specs.NodeNotes.{note_of, node_note};
ghost use Rattle.tn_program.specs.Views.{program_of};
ghost use Rattle.tn_run.specs.Jobs.{OfScript};
ghost use Rattle.tn_replay.specs.Notes.{note_seen};

use crate::node_commands::can_differ;
use std::alloc::{AllocError, Allocator};
use tn_program::Program;
use tn_run::{Denial, accept};
use tn_running_node::moves_that_differ;

/// That a running node does some moves of a run otherwise.
#[derive(Clone, Copy, Debug, PartialEq, Eq, Drop)]
pub struct NodeNote {
    /// How many it does otherwise.
    pub differing: usize,
    /// How many moves there are.
    pub moves: usize,
}

/// What is said of a run on standard error.
#[derive(Clone, Copy, Debug, PartialEq, Eq, Drop)]
pub struct RunNotes {
    /// That a running node does some of its moves otherwise.
    pub node: Option<NodeNote>,
    /// Whether one of its commands is refused, matches no function or has a trap.
    pub has_remarks: bool,
}

/// The note of these moves, each with whether a node does it otherwise; None where it does none so.
fn note_of(differs: &[bool]) -> Option<NodeNote>
    ensures { option_map note_seen result ≡ note_of differs.now }
{
    let mut differing = 0;
    for differ in differs {
        if *differ {
            differing += 1;
        }
    }
    if differing == 0 {
        return None;
    }
    Some(NodeNote {
        differing,
        moves: differs.len(),
    })
}

/// The note of the program's run by these picks. Where no command can lead to a difference nothing is run.
///
/// # Errors
///
/// AllocError where memory was refused.
pub fn node_note<A: Allocator + Copy>(
    alloc: A,
    program: &Program<A>,
    picks: &[u32],
) -> Result<Option<NodeNote>, AllocError>
    ensures { IfOk result (λ n. option_map note_seen n ≡ node_note (program_of program.now) picks.now) }
{
    if !can_differ(alloc, program)? {
        return Ok(None);
    }
    let differs = moves_that_differ(alloc, program, picks)?;
    Ok(note_of(&differs))
}

/// The note of the run of a whole text by these picks.
///
/// # Errors
///
/// The denial of the text, which is no script; or refused memory.
pub fn text_note<A: Allocator + Copy>(
    alloc: A,
    text: &[u8],
    picks: &[u32],
) -> Result<Option<NodeNote>, Denial>
    ensures { IfOk result (λ n. OfScript text.now (λ p. option_map note_seen n ≡ node_note p picks.now)) }
{
    let program = accept(alloc, text)?;
    match node_note(alloc, &program, picks) {
        Ok(note) => Ok(note),
        Err(_) => Err(Denial::OutOfMemory),
    }
}
