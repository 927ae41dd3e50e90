// The pieces of the text of what breaks a rule.
ghost use Rattle.std.specs.Prelude.{◌≡◌, ◌≤◌, ◌<◌, ◌++◌, length, take, drop, codes, decimal, OnOk};
ghost use Rattle.def_term.specs.Text.{atom_text};
ghost use Rattle.def_wording.specs.PlaceTexts.{spot_text};
ghost use Rattle.def_wording.specs.ShownTexts.{shown_text, shown_term};
ghost use Rattle.tn_term.specs.Views.{tree_of};

use crate::bytes::first_bytes;
use crate::line_column::line_column_of;
use std::alloc::{AllocError, Allocator};
use tn_term::{Atom, Term};
use tn_text::{write_atom, write_decimal, write_term};

/// How many bytes of a token or a term are shown.
const SHOWN: usize = 60;

/// Appends words, and a number in decimal; after an `Err` a part of it may be there.
pub fn put_number<A: Allocator>(
    words: &[u8],
    number: usize,
    out: &mut Vec<u8, A>,
) -> Result<(), AllocError>
    ensures { OnOk result (out.new.items ≡ out.old.items ++ words.now ++ decimal number) }
{
    out.extend_from_slice(words)?;
    write_decimal(number, out)
}

/// Appends words, and the text of an atom; after an `Err` a part of it may be there.
pub fn put_atom<A: Allocator>(
    words: &[u8],
    atom: &Atom<A>,
    out: &mut Vec<u8, A>,
) -> Result<(), AllocError>
    ensures { OnOk result (out.new.items ≡ out.old.items ++ words.now ++ atom_text atom.now) }
{
    out.extend_from_slice(words)?;
    write_atom(atom, out)
}

/// Appends the bytes, or of more than 60 the first and two dots; after an `Err` a part of it may be there.
pub fn put_shown<A: Allocator>(bytes: &[u8], out: &mut Vec<u8, A>) -> Result<(), AllocError>
    ensures { OnOk result (out.new.items ≡ out.old.items ++ shown_text bytes.now) }
{
    if bytes.len() <= SHOWN {
        return out.extend_from_slice(bytes);
    }
    out.extend_from_slice(first_bytes(bytes, SHOWN))?;
    out.extend_from_slice(b"..")
}

/// Cuts what stands after the first so many bytes, where that is more than 60: its first 60 and two dots stay.
fn cut_after<A: Allocator>(start: usize, out: &mut Vec<u8, A>) -> Result<(), AllocError>
    requires { start ≤ length out.old.items }
    ensures { OnOk result (out.new.items ≡ take start out.old.items ++ shown_text (drop start out.old.items)) }
{
    if out.len() - start <= SHOWN {
        return Ok(());
    }
    out.truncate(start + SHOWN);
    out.extend_from_slice(b"..")
}

/// Appends the text of a term, or of more than 60 bytes the first and two dots; after an `Err` a part of it may be
/// there.
pub fn put_term<A: Allocator>(term: &Term<A>, out: &mut Vec<u8, A>) -> Result<(), AllocError>
    ensures { OnOk result (out.new.items ≡ out.old.items ++ shown_term (tree_of term.now)) }
{
    let start = out.len();
    write_term(term, out)?;
    cut_after(start, out)
}

/// Appends the line and the column of an offset, as `LINE:COLUMN`; after an `Err` a part of it may be there.
pub fn put_place<A: Allocator>(
    text: &[u8],
    at: usize,
    out: &mut Vec<u8, A>,
) -> Result<(), AllocError>
    requires { length text.now < usize.MAX }
    ensures { OnOk result (out.new.items ≡ out.old.items ++ spot_text text.now at) }
{
    let place = line_column_of(text, at);
    write_decimal(place.line, out)?;
    put_number(b":", place.column, out)
}
