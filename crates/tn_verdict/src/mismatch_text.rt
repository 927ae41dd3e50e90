// The text of where a head first differs.
ghost use Rattle.std.specs.Prelude.{◌≡◌, ◌++◌, OnOk, codes, decimal, flat_map};
ghost use Rattle.def_explain.specs.Texts.{head_part_text, mismatch_text};
ghost use Rattle.tn_mismatch.specs.Views.{head_part_seen, mismatch_seen};
ghost use Rattle.tn_text.specs.Writes.{Grows};
ghost use Rattle.tn_verdict.specs.MismatchTexts.{level_text};

use crate::expression_text::put_variable;
use std::alloc::{AllocError, Allocator};
use tn_guard::write_value;
use tn_mismatch::{HeadPart, Mismatch};
use tn_text::{write_decimal, write_next, write_term};

/// Appends the place, what the head has there, and the term.
pub fn put_mismatch<A: Allocator, B: Allocator>(
    mismatch: Mismatch<'_, A>,
    out: &mut Vec<u8, B>,
) -> Result<(), AllocError>
    ensures ok { OnOk result (out.new.items ≡ out.old.items ++ mismatch_text (mismatch_seen mismatch.entry)) }
    ensures grows { Grows out.old.items out.new.items }
{
    put_place(mismatch.place, out)?;
    out.extend_from_slice(b": ")?;
    put_head_part(mismatch.part, out)?;
    out.extend_from_slice(b", found ")?;
    write_value(mismatch.value, out)
}

/// Appends the number of an element, level by level.
fn put_place<B: Allocator>(place: &[usize], out: &mut Vec<u8, B>) -> Result<(), AllocError>
    ensures ok { OnOk result (out.new.items ≡ out.old.items ++ flat_map level_text place.now) }
    ensures grows { Grows out.old.items out.new.items }
{
    for before in place {
        put_element(*before, out)?;
    }
    Ok(())
}

/// Appends the number of the element after so many.
fn put_element<B: Allocator>(before: usize, out: &mut Vec<u8, B>) -> Result<(), AllocError>
    ensures ok { OnOk result (out.new.items ≡ out.old.items ++ level_text before) }
    ensures grows { Grows out.old.items out.new.items }
{
    out.extend_from_slice(b", element ")?;
    write_next(before, out)
}

/// Appends what a head has at a place.
fn put_head_part<A: Allocator, B: Allocator>(
    part: HeadPart<'_, A>,
    out: &mut Vec<u8, B>,
) -> Result<(), AllocError>
    ensures ok { OnOk result (out.new.items ≡ out.old.items ++ head_part_text (head_part_seen part.entry)) }
    ensures grows { Grows out.old.items out.new.items }
{
    match part {
        HeadPart::Term(term) => {
            write_term(term, out)?;
            out.extend_from_slice(b" expected")
        }
        HeadPart::Bound { number, value } => {
            put_variable(number, out)?;
            out.extend_from_slice(b" is ")?;
            write_value(value, out)
        }
        HeadPart::Tuple(size) => put_size(b"a tuple of ", size, out),
        HeadPart::List(size) => put_size(b"a list of ", size, out),
    }
}

/// Appends that a thing of this size is expected.
fn put_size<B: Allocator>(thing: &[u8], size: usize, out: &mut Vec<u8, B>) -> Result<(), AllocError>
    ensures ok { OnOk result (out.new.items ≡ out.old.items ++ (thing.now ++ (decimal size ++ codes " expected"))) }
    ensures grows { Grows out.old.items out.new.items }
{
    out.extend_from_slice(thing)?;
    write_decimal(size, out)?;
    out.extend_from_slice(b" expected")
}
