// What breaks the rule on a text of picks: refusal 20.
ghost use Rattle.std.specs.Prelude.{◌≡◌, ◌<◌, ◌++◌, [], true, length, codes, decimal, OnOk};
ghost use Rattle.std.specs.Option.{option_map};
ghost use Rattle.def_term.specs.Text.{is_digit};
ghost use Rattle.def_text.specs.Tokens.{all_are};
ghost use Rattle.def_wording.specs.PickTexts.{pick_fault as fault_of_piece, fits_a_pick, pick_fault_text};
ghost use Rattle.def_wording.specs.PickTexts.{has_byte, byte_fault};
ghost use Rattle.def_wording.specs.PickTexts.{wrong_pick_text, wrong_piece, first_wrong_piece};
ghost use Rattle.def_wording.specs.PickTexts.{pieces_from, picks_detail};
ghost use Rattle.tn_refusal.specs.PickViews.{pick_fault_seen, wrong_pick_seen};

use crate::put::{put_number, put_shown};
use std::alloc::{AllocError, Allocator};
use std::str::from_utf8;
use tn_text::MAX_TEXT;

/// Whether the digits are those of a number of 32 bits.
fn fits(digits: &[u8]) -> bool
    requires digits { all_are is_digit digits.now ≡ true }
    requires some { 0 < length digits.now }
    ensures { result ≡ fits_a_pick digits.now }
{
    match from_utf8(digits) {
        Ok(text) => match text.parse::<u32>() {
            Ok(_) => true,
            Err(_) => false,
        },
        Err(_) => false,
    }
}

/// Why a piece of the text is no pick.
#[derive(Clone, Copy)]
enum PickFault {
    NoBytes,
    CarriageReturn,
    LineFeed,
    OfMoves,
    NoDecimal,
    LeadingZero,
    TooGreat,
}

/// Why it is none, in words.
fn fault_words(fault: PickFault) -> &'static [u8]
    ensures { result.now ≡ pick_fault_text (pick_fault_seen fault) }
{
    match fault {
        PickFault::NoBytes =>
            b"is empty: one blank stands between each two picks, and none at an end",
        PickFault::CarriageReturn => b"has a carriage return: all picks are in one line",
        PickFault::LineFeed => b"has a line feed: all picks are in one line",
        PickFault::OfMoves => b"is no decimal number: a text of moves is given by --moves",
        PickFault::NoDecimal => b"is no decimal number",
        PickFault::LeadingZero => b"has a leading zero",
        PickFault::TooGreat => b"is greater than 4294967295",
    }
}

/// Whether each byte of the piece is a digit.
fn are_digits(piece: &[u8]) -> bool
    ensures { result ≡ all_are is_digit piece.now }
{
    for b in piece {
        if !b.is_ascii_digit() {
            return false;
        }
    }
    true
}

/// Whether one of the bytes is this one.
fn has_byte(bytes: &[u8], wanted: u8) -> bool
    ensures { result ≡ has_byte wanted bytes.now }
{
    bytes.iter().any(|byte| *byte == wanted)
}

/// Why a piece of which a byte is no digit is no pick.
fn byte_fault(piece: &[u8]) -> PickFault
    ensures { pick_fault_seen result ≡ byte_fault piece.now }
{
    if has_byte(piece, b'\r') {
        PickFault::CarriageReturn
    } else if has_byte(piece, b'\n') {
        PickFault::LineFeed
    } else if has_byte(piece, b'!') || has_byte(piece, b'*') {
        PickFault::OfMoves
    } else {
        PickFault::NoDecimal
    }
}

/// Why a piece of the text is no pick; None where it is one.
fn pick_fault(piece: &[u8]) -> Option<PickFault>
    ensures { option_map pick_fault_seen result ≡ fault_of_piece piece.now }
{
    if piece.is_empty() {
        return Some(PickFault::NoBytes);
    }
    if !are_digits(piece) {
        return Some(byte_fault(piece));
    }
    if piece[0] == b'0' && piece.len() > 1 {
        return Some(PickFault::LeadingZero);
    }
    if fits(piece) {
        None
    } else {
        Some(PickFault::TooGreat)
    }
}

/// A piece that is no pick: its number, from 1, its bytes, and why it is none.
#[derive(Clone, Copy)]
struct WrongPick<'a> {
    number: usize,
    piece: &'a [u8],
    fault: PickFault,
}

/// The piece with this number, where it is no pick.
fn wrong_pick(piece: &[u8], number: usize) -> Option<WrongPick<'_>>
    ensures { option_map wrong_pick_seen result ≡ wrong_piece number piece.now }
{
    match pick_fault(piece) {
        Some(fault) => Some(WrongPick {
            number,
            piece,
            fault,
        }),
        None => None,
    }
}

/// The first piece of the text that is no pick.
fn first_wrong(text: &[u8]) -> Option<WrongPick<'_>>
    requires { length text.now < usize.MAX }
    ensures { option_map wrong_pick_seen result ≡ first_wrong_piece 1 (pieces_from [] text.now) }
{
    let mut from = 0usize;
    let mut number = 1usize;
    for i in 0..text.len() {
        if text[i] == b' ' {
            match wrong_pick(&text[from..i], number) {
                Some(wrong) => return Some(wrong),
                None => {}
            }
            from = i + 1;
            number += 1;
        }
    }
    wrong_pick(&text[from..], number)
}

/// Appends which pick is none, and why; after an `Err` a part of it may be there.
fn put_wrong<A: Allocator>(wrong: WrongPick<'_>, out: &mut Vec<u8, A>) -> Result<(), AllocError>
    ensures { OnOk result (out.new.items ≡ out.old.items ++ wrong_pick_text (wrong_pick_seen wrong.entry)) }
{
    put_number(b": pick ", wrong.number, out)?;
    out.extend_from_slice(b", '")?;
    put_shown(wrong.piece, out)?;
    out.extend_from_slice(b"', ")?;
    out.extend_from_slice(fault_words(wrong.fault))
}

/// Appends how long the text is; after an `Err` a part of it may be there.
fn put_length<A: Allocator>(length: usize, out: &mut Vec<u8, A>) -> Result<(), AllocError>
    ensures { OnOk result (out.new.items ≡ out.old.items
        ++ codes ": there are " ++ decimal length ++ codes " bytes, of at most 1048576") }
{
    put_number(b": there are ", length, out)?;
    out.extend_from_slice(b" bytes, of at most 1048576")
}

/// Appends which pick is none, or how long the text is; after an `Err` a part of it may be there.
pub fn put_picks<A: Allocator>(text: &[u8], out: &mut Vec<u8, A>) -> Result<(), AllocError>
    ensures { OnOk result (out.new.items ≡ out.old.items ++ picks_detail text.now) }
{
    if text.len() > MAX_TEXT {
        return put_length(text.len(), out);
    }
    match first_wrong(text) {
        Some(wrong) => put_wrong(wrong, out),
        None => Ok(()),
    }
}
