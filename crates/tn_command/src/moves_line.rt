// What is said on standard error of a run that is refused, for its text of moves or another.
ghost use Rattle.std.specs.Prelude.{◌≡◌, ◌++◌, [], drop, OnOk, IfOk};
ghost use Rattle.std.specs.Option.{option_map};
ghost use Rattle.def_text.specs.Places.{place_at};
ghost use Rattle.def_notice.specs.MovesTexts.{bad_moves_text, no_count, no_directive_at, no_start, too_many_bytes};
ghost use Rattle.tn_program.specs.Views.{program_of};
ghost use Rattle.tn_notice.specs.MovesViews.{moves_reason_seen};
ghost use Rattle.tn_command.specs.Notices.{IsDirectiveLine, IsMovesLine, start_functions, piece_at, wrong_piece_seen};
ghost use Rattle.tn_command.specs.Notices.{reason_of_name, IsReasonOfNumber, IsReasonWithoutName};

use crate::stderr::{NamedText, tell_refusal};
use std::alloc::{AllocError, Global};
use tn_moves::{MovesRefusal, amount_len, mover_len, number, pids_named};
use tn_notice::{BadMoves, MovesReason, print_line, write_bad_moves};
use tn_program::Program;
use tn_refusal::{LineColumn, line_column_of};
use tn_run::{RunRefusal, accept};

/// A piece of a text of moves in which no directive stands: what says who moves, and what says how often.
#[derive(Clone, Copy)]
struct WrongPiece<'a> {
    mover: &'a [u8],
    amount: &'a [u8],
}

/// That no initial process starts in a function of this name.
fn no_start_of<'a>(program: &'a Program<Global>, name: &'a [u8]) -> MovesReason<'a, Global>
    ensures { moves_reason_seen result ≡ no_start name.now (start_functions (program_of program.now)) }
{
    let entries = program.entries();
    MovesReason::NoStart { name, entries }
}

/// That how often it moves isn't what stands after who moves.
fn no_count_of(piece: WrongPiece<'_>) -> MovesReason<'_, Global>
    ensures { moves_reason_seen result ≡ no_count piece.entry.mover.now piece.entry.amount.now }
{
    let WrongPiece { mover, amount } = piece;
    MovesReason::NoCount { mover, amount }
}

/// Why a piece that begins with a name stands for no directive, where the initial processes with that name have these
/// pids.
fn reason_of_name<'a>(
    program: &'a Program<Global>,
    piece: WrongPiece<'a>,
    pids: &'a [u32],
) -> MovesReason<'a, Global>
    ensures { moves_reason_seen result ≡
        reason_of_name (program_of program.now) (wrong_piece_seen piece.entry) pids.now }
{
    if pids.is_empty() {
        return no_start_of(program, piece.mover);
    }
    if pids.len() == 1 {
        return no_count_of(piece);
    }
    MovesReason::ManyStarts {
        name: piece.mover,
        pids,
    }
}

/// Why a piece that begins with a digit stands for no directive.
fn reason_of_number(
    alloc: Global,
    piece: WrongPiece<'_>,
) -> Result<MovesReason<'_, Global>, AllocError>
    ensures { IfOk result (λ r. IsReasonOfNumber (wrong_piece_seen piece.entry) (moves_reason_seen r)) }
{
    match number(alloc, piece.mover)? {
        Some(_) => Ok(no_count_of(piece)),
        None => Ok(MovesReason::NoNumber { found: piece.mover }),
    }
}

/// Why a piece that begins with no name stands for no directive; None where it begins with one.
fn reason_without_name(
    alloc: Global,
    piece: WrongPiece<'_>,
) -> Result<Option<MovesReason<'_, Global>>, AllocError>
    ensures { IfOk result (λ o. IsReasonWithoutName (wrong_piece_seen piece.entry) (option_map moves_reason_seen o)) }
{
    let [first, ..] = piece.mover else {
        return Ok(Some(MovesReason::NoMover {
            found: piece.amount,
        }));
    };
    if !first.is_ascii_digit() {
        return Ok(None);
    }
    let reason = reason_of_number(alloc, piece)?;
    Ok(Some(reason))
}

/// Appends the line of a text of moves in which no directive stands at this place.
fn put_no_directive(
    place: LineColumn,
    reason: MovesReason<'_, Global>,
    line: &mut Vec<u8>,
) -> Result<(), AllocError>
    ensures { OnOk result (line.new.items ≡ line.old.items ++ bad_moves_text
        (no_directive_at (record { line = place.line; column = place.column }) (moves_reason_seen reason.entry))) }
{
    let moves = BadMoves::NoDirective {
        line: place.line,
        column: place.column,
        reason,
    };
    write_bad_moves(moves, line)
}

/// Appends the line of a text of moves in which no directive stands at this place, where this piece is.
fn put_wrong_piece(
    alloc: Global,
    script: NamedText<'_>,
    place: LineColumn,
    piece: WrongPiece<'_>,
    line: &mut Vec<u8>,
) -> Result<(), AllocError>
    requires { line.old.items ≡ [] }
    ensures { OnOk result (IsDirectiveLine script.entry.bytes.now (wrong_piece_seen piece.entry)
        (record { line = place.line; column = place.column }) line.new.items) }
{
    if let Some(reason) = reason_without_name(alloc, piece)? {
        return put_no_directive(place, reason, line);
    }
    let Ok(program) = accept(alloc, script.bytes) else {
        return put_no_directive(place, MovesReason::NoProgram, line);
    };
    let pids = pids_named(alloc, &program, piece.mover)?;
    put_no_directive(place, reason_of_name(&program, piece, &pids), line)
}

/// The bytes of a text from an offset on.
fn rest_at(text: &[u8], at: usize) -> &[u8]
    ensures { result.now ≡ drop at text.now }
{
    if at < text.len() { &text[at..] } else { b"" }
}

/// The piece of a text at an offset.
fn piece_at(text: &[u8], at: usize) -> WrongPiece<'_>
    ensures { wrong_piece_seen result ≡ piece_at text.now at }
{
    let left = rest_at(text, at);
    let (mover, rest) = left.split_at(mover_len(left));
    WrongPiece {
        mover,
        amount: &rest[..amount_len(rest)],
    }
}

/// The line of a text of moves in which no directive stands at this offset.
fn directive_line(
    alloc: Global,
    script: NamedText<'_>,
    moves: &[u8],
    at: usize,
) -> Result<Vec<u8>, AllocError>
    ensures { IfOk result (λ v.
        IsDirectiveLine script.entry.bytes.now (piece_at moves.now at) (place_at moves.now at) v.items) }
{
    let place = line_column_of(moves, at);
    let piece = piece_at(moves, at);
    let mut line = Vec::new(alloc);
    put_wrong_piece(alloc, script, place, piece, &mut line)?;
    Ok(line)
}

/// The line of a text of moves that is too long.
fn long_moves_line(alloc: Global) -> Result<Vec<u8>, AllocError>
    ensures { IfOk result (λ v. v.items ≡ bad_moves_text too_many_bytes) }
{
    let mut line = Vec::new(alloc);
    write_bad_moves(BadMoves::<Global>::TooManyBytes, &mut line)?;
    Ok(line)
}

/// The line that says where a text of moves is refused, and why.
fn moves_line(
    alloc: Global,
    refusal: MovesRefusal,
    script: NamedText<'_>,
    moves: &[u8],
) -> Result<Vec<u8>, AllocError>
    ensures { IfOk result (λ v. IsMovesLine script.entry.bytes.now moves.now refusal v.items) }
{
    match refusal {
        MovesRefusal::TooLong => long_moves_line(alloc),
        MovesRefusal::NoDirective { at } => directive_line(alloc, script, moves, at),
    }
}

/// Says in one line why a script is not run, where this is the text of its picks or moves.
pub(crate) fn tell_run_refusal<R: Eprint + AllocGlobal>(
    rt: &R,
    refusal: RunRefusal,
    script: NamedText<'_>,
    text: &[u8],
) {
    match refusal {
        RunRefusal::Text(refusal) => tell_refusal(rt, refusal, script, text),
        RunRefusal::Moves(refusal) => {
            if let Ok(line) = moves_line(rt.alloc(), refusal, script, text) {
                print_line(rt, &line);
            }
        }
    }
}
