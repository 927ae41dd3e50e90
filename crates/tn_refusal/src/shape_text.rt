// The text of why a term is no form: refusal 5.
ghost use Rattle.std.specs.Prelude.{◌≡◌, ◌++◌, codes, decimal, OnOk};
ghost use Rattle.def_wording.specs.ShapeTexts.{unfit_part, other_count, part_reason_text};
ghost use Rattle.def_wording.specs.ShapeTexts.{shapeless_text, shape_detail};
ghost use Rattle.tn_term.specs.Views.{tree_of};
ghost use Rattle.tn_refusal.specs.ShapeReasons.{part_reason_seen, shapeless_reason_seen};

use crate::part_reasons::PartReason;
use crate::put::{put_number, put_term};
use crate::shape_reasons::{ShapelessReason, shape_reason};
use std::alloc::{AllocError, Allocator};
use tn_term::Term;

/// Appends what a part must be, and what is there; after an `Err` a part of the text may be there.
fn put_unfit<A: Allocator>(
    part: &[u8],
    must_be: &[u8],
    term: &Term<A>,
    out: &mut Vec<u8, A>,
) -> Result<(), AllocError>
    ensures { OnOk result (out.new.items
        ≡ out.old.items ++ part_reason_text (unfit_part part.now must_be.now (tree_of term.now))) }
{
    out.extend_from_slice(part)?;
    out.extend_from_slice(must_be)?;
    out.extend_from_slice(b", found ")?;
    put_term(term, out)
}

/// Appends how many elements a tuple must have, and how many it has; after an `Err` a part of the text may be there.
fn put_count<A: Allocator>(
    shape: &[u8],
    wanted: usize,
    there: usize,
    out: &mut Vec<u8, A>,
) -> Result<(), AllocError>
    ensures { OnOk result (out.new.items
        ≡ out.old.items ++ part_reason_text (other_count shape.now wanted there)) }
{
    out.extend_from_slice(shape)?;
    put_number(b" has ", wanted, out)?;
    put_number(b" elements, found ", there, out)
}

/// Appends why a part doesn't fit; after an `Err` a part of the text may be there.
fn put_part_reason<A: Allocator>(
    reason: PartReason<'_, A>,
    out: &mut Vec<u8, A>,
) -> Result<(), AllocError>
    ensures { OnOk result (out.new.items ≡ out.old.items ++ part_reason_text (part_reason_seen reason.entry)) }
{
    match reason {
        PartReason::UnfitPart(part, must_be, term) => put_unfit(part, must_be, term, out),
        PartReason::OtherCount(shape, wanted, there) => put_count(shape, wanted, there, out),
        PartReason::TooMany(words, there) => put_number(words, there, out),
    }
}

/// Appends words, the number of a step or a command, and why that has no shape; after an `Err` a part of the text may
/// be there.
fn put_item_reason<A: Allocator>(
    words: &[u8],
    number: usize,
    reason: PartReason<'_, A>,
    out: &mut Vec<u8, A>,
) -> Result<(), AllocError>
    ensures { OnOk result (out.new.items ≡ out.old.items ++ words.now ++ decimal number ++ codes ": "
        ++ part_reason_text (part_reason_seen reason.entry)) }
{
    put_number(words, number, out)?;
    out.extend_from_slice(b": ")?;
    put_part_reason(reason, out)
}

/// Appends why a term is no form; after an `Err` a part of the text may be there.
fn put_shapeless<A: Allocator>(
    reason: ShapelessReason<'_, A>,
    out: &mut Vec<u8, A>,
) -> Result<(), AllocError>
    ensures { OnOk result (out.new.items ≡ out.old.items ++ shapeless_text (shapeless_reason_seen reason.entry)) }
{
    match reason {
        ShapelessReason::OfPart(reason) => put_part_reason(reason, out),
        ShapelessReason::OfStep(number, reason) => put_item_reason(b"step ", number, reason, out),
        ShapelessReason::OfCommand(number, reason) => {
            put_item_reason(b"command ", number, reason, out)
        }
    }
}

/// Appends, after a colon, which part of a term is at fault where it is no form, or which forms there are; after an
/// `Err` a part of the text may be there.
pub fn put_shape<A: Allocator>(term: &Term<A>, out: &mut Vec<u8, A>) -> Result<(), AllocError>
    ensures { OnOk result (out.new.items ≡ out.old.items ++ shape_detail (tree_of term.now)) }
{
    out.extend_from_slice(b": ")?;
    match shape_reason(term) {
        Some(reason) => put_shapeless(reason, out),
        None => Ok(()),
    }
}
