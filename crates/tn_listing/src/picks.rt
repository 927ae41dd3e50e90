// The text of a list of picks, read and written.
ghost use Rattle.std.specs.Prelude.{◌≡◌, ◌≢◌, ℕ, ◌^◌, ◌<◌, ◌==◌, List, position, MatchOption, IfOk, IfSome};
ghost use Rattle.std.specs.Prelude.{IsErrOf, length, decimal, ◌++◌, OnOk, OnErr};
ghost use Rattle.tn_listing.specs.Pieces.{IsCutInto};
ghost use Rattle.def_run.specs.Picks.{SpellsPicks, picks_text};
ghost use Rattle.tn_text.specs.Writes.{Grows};

use crate::undo::or_as_it_was;
use itoa::Buffer;
use std::alloc::{AllocError, Allocator};
use std::str::from_utf8;
use thiserror::Error;
use tn_text::MAX_TEXT;

/// Why a text has no picks.
#[derive(Clone, Copy, Debug, PartialEq, Eq, Drop, Error)]
pub enum PicksFault {
    /// 20: the text is none of a list of picks, or is longer than 1,048,576 bytes.
    #[error("refused 20 bad picks")]
    BadPicks,
    /// The allocator refused memory.
    #[error("fault memory")]
    OutOfMemory,
}

/// The number that the piece writes, without a leading zero.
fn number(piece: &[u8]) -> Option<u32>
    ensures { MatchOption result ((n : ℕ) → n < 2 ^ 32 → piece.now ≢ decimal n) (λ n. piece.now ≡ decimal n) }
{
    if piece.is_empty() || piece[0] == b'+' {
        return None;
    }
    if piece[0] == b'0' && piece.len() > 1 {
        return None;
    }
    let Ok(text) = from_utf8(piece) else {
        return None;
    };
    text.parse::<u32>().ok()
}

/// Where the first space stands.
fn space_at(text: &[u8]) -> Option<usize>
    ensures { result ≡ position (λ b. b == 32) text.now }
{
    text.iter().position(|b| *b == b' ')
}

/// The first piece of a text, and what stands after its space.
fn first_piece(text: &[u8]) -> (&[u8], Option<&[u8]>)
    ensures cut { IsCutInto text.now result.0.now result.1 }
    ensures shorter { IfSome result.1 (λ rest. length rest.now < length text.now) }
{
    match space_at(text) {
        None => (text, None),
        Some(end) => (&text[..end], Some(&text[end + 1..])),
    }
}

/// The picks of the text, of at most 1,048,576 bytes.
pub fn read_picks<A: Allocator>(alloc: A, text: &[u8]) -> Result<Vec<u32, A>, PicksFault>
    ensures picks { IfOk result (λ v. SpellsPicks text.now v.items) }
    ensures alone { IfOk result (λ v. (picks : List ℕ) → SpellsPicks text.now picks → picks ≡ v.items) }
    ensures bad { IsErrOf result PicksFault.BadPicks → (picks : List ℕ) → SpellsPicks text.now picks → ⊥ }
{
    if text.len() > MAX_TEXT {
        return Err(PicksFault::BadPicks);
    }
    let mut picks = Vec::new(alloc);
    if text.is_empty() {
        return Ok(picks);
    }
    let mut left = Some(text);
    while let Some(rest) = left {
        let (piece, more) = first_piece(rest);
        let Some(pick) = number(piece) else {
            return Err(PicksFault::BadPicks);
        };
        picks.push(pick).map_err(|_| PicksFault::OutOfMemory)?;
        left = more;
    }
    Ok(picks)
}

/// Appends the picks' numbers, with one space between each two; after an `Err` some may stand there.
fn put_picks<A: Allocator>(picks: &[u32], text: &mut Vec<u8, A>) -> Result<(), AllocError>
    ensures ok { OnOk result (text.new.items ≡ text.old.items ++ picks_text picks.now) }
    ensures grows { Grows text.old.items text.new.items }
{
    let mut buffer = Buffer::new();
    for (i, pick) in picks.iter().enumerate() {
        if i > 0 {
            text.push(b' ')?;
        }
        text.extend_from_slice(buffer.format(*pick).as_bytes())?;
    }
    Ok(())
}

/// Appends the text of the picks: their decimal numbers, with one space between each two.
///
/// # Errors
///
/// AllocError where memory was refused: the vector is as it was.
pub fn write_picks<A: Allocator>(picks: &[u32], out: &mut Vec<u8, A>) -> Result<(), AllocError>
    ensures ok { OnOk result (out.new.items ≡ out.old.items ++ picks_text picks.now) }
    ensures err { OnErr result (out.new.items ≡ out.old.items) }
{
    let len = out.len();
    let done = put_picks(picks, out);
    or_as_it_was(out, len, done)
}
