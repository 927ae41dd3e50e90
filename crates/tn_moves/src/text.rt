// The directives that a text of moves stands for.
ghost use Rattle.std.specs.Prelude.{◌<◌, length, IfOk};
ghost use Rattle.tn_program.specs.Views.{program_of};
ghost use Rattle.tn_moves.specs.Pieces.{piece_seen};
ghost use Rattle.tn_moves.specs.Readings.{IsCountRead, IsPieceRead, AreDirectives};

use crate::directive::Directive;
use crate::mover::{mover, number};
use crate::piece::{Piece, piece_at};
use std::alloc::{AllocError, Allocator};
use tn_program::Program;
use tn_text::MAX_TEXT;

/// Why a text is none of moves in a run of a program.
#[derive(Clone, Copy, Debug, PartialEq, Eq, Drop)]
pub enum MovesRefusal {
    /// It is longer than 1,048,576 bytes.
    TooLong,
    /// The piece at this offset stands for no directive.
    NoDirective { at: usize },
}

/// Why there are no directives.
#[derive(Clone, Copy, Debug, PartialEq, Eq, Drop)]
pub enum MovesFault {
    /// The text is refused.
    Refused(MovesRefusal),
    /// The allocator refused memory.
    OutOfMemory,
}

/// How many picks a text says: one, or those of a number after `*`.
fn count<A: Allocator>(alloc: A, text: &[u8]) -> Result<Option<u32>, AllocError>
    ensures { IfOk result (IsCountRead text.now) }
{
    let [star, digits @ ..] = text else {
        return Ok(Some(1));
    };
    if *star != b'*' {
        return Ok(None);
    }
    let Some(count) = number(alloc, digits)? else {
        return Ok(None);
    };
    if count >= 65536 {
        return Ok(None);
    }
    Ok(Some(count))
}

/// The directive of a piece that says who moves.
fn directive_of_mover<A: Allocator + Copy>(
    alloc: A,
    program: &Program<A>,
    piece: &Piece<'_>,
) -> Result<Option<Directive>, AllocError>
    requires { 0 < length piece.now.mover.now }
    ensures { IfOk result (IsPieceRead (program_of program.now) (piece_seen piece.now)) }
{
    let Some(pick) = mover(alloc, program, piece.mover)? else {
        return Ok(None);
    };
    if piece.amount == b"!".as_slice() {
        return Ok(Some(Directive::UntilIdle(pick)));
    }
    match count(alloc, piece.amount)? {
        Some(count) => Ok(Some(Directive::Times { count, pick })),
        None => Ok(None),
    }
}

/// The directive that a piece stands for.
fn directive_of<A: Allocator + Copy>(
    alloc: A,
    program: &Program<A>,
    piece: &Piece<'_>,
) -> Result<Option<Directive>, AllocError>
    ensures { IfOk result (IsPieceRead (program_of program.now) (piece_seen piece.now)) }
{
    if !piece.mover.is_empty() {
        return directive_of_mover(alloc, program, piece);
    }
    if piece.amount == b"*".as_slice() {
        return Ok(Some(Directive::Everybody));
    }
    Ok(None)
}

/// The directives that a text of moves stands for in a run of the program.
///
/// # Errors
///
/// Refused where the text is longer than 1,048,576 bytes or has a piece that stands for none, with the place of the
/// first; OutOfMemory where memory was refused.
pub fn directives_of_text<A: Allocator + Copy>(
    alloc: A,
    program: &Program<A>,
    text: &[u8],
) -> Result<Vec<Directive, A>, MovesFault>
    ensures { AreDirectives (program_of program.now) text.now result }
{
    if text.len() > MAX_TEXT {
        return Err(MovesFault::Refused(MovesRefusal::TooLong));
    }
    let mut directives = Vec::new(alloc);
    let mut at = 0;
    while at < text.len() {
        let Some(piece) = piece_at(text, at) else {
            return Ok(directives);
        };
        let Ok(found) = directive_of(alloc, program, &piece) else {
            return Err(MovesFault::OutOfMemory);
        };
        let Some(directive) = found else {
            let refusal = MovesRefusal::NoDirective { at: piece.from };
            return Err(MovesFault::Refused(refusal));
        };
        if directives.push(directive).is_err() {
            return Err(MovesFault::OutOfMemory);
        }
        at = piece.from + piece.mover.len() + piece.amount.len();
    }
    Ok(directives)
}
