// Places in a text.
ghost use Rattle.std.specs.Prelude.{◌≡◌, ◌<◌, length, IfOk};
ghost use Rattle.tn_refusal.specs.Locations.{IsPlaced};
ghost use Rattle.tn_refusal.specs.Refusals.{refusal_of, refused_part};
ghost use Rattle.tn_refusal.specs.Starts.{IsListable};
ghost use Rattle.complete_scripts.specs.Fronts.{BeginAlike};

use std::alloc::{AllocError, Allocator};
use tn_refusal::{LineColumn, Refusal, form_offset, line_column_of};

/// `tn_refusal::line_column_of` has one answer.
pub fn place(text: &[u8], offset: usize) -> (LineColumn, LineColumn)
    requires { length text.now < usize.MAX }
    ensures { result.0 ≡ result.1 }
{
    (line_column_of(text, offset), line_column_of(text, offset))
}

/// `tn_refusal::form_offset` has one answer for a text of tokens. Of another text that is short enough it
/// may have the offset or none.
pub fn offset<A: Allocator + Copy>(
    alloc: A,
    text: &[u8],
    form: usize,
) -> (
    Result<Option<usize>, AllocError>,
    Result<Option<usize>, AllocError>,
)
    requires { IsListable text.now }
    ensures { IfOk result.0 (λ x. IfOk result.1 (λ y. x ≡ y)) }
{
    (
        form_offset(alloc, text, form),
        form_offset(alloc, text, form),
    )
}

/// `tn_refusal::explain` has one answer but for what follows the words of the rule, which says what breaks it.
pub fn line<A: Allocator + Copy>(
    alloc: A,
    name: &str,
    text: &[u8],
    refusal: Refusal,
) -> (
    Result<Vec<u8, A>, AllocError>,
    Result<Vec<u8, A>, AllocError>,
)
    requires { IsPlaced text.now (refused_part (refusal_of refusal)) }
    ensures { IfOk result.0 (λ v. IfOk result.1 (λ w. BeginAlike name.now (refusal_of refusal) v.items w.items)) }
{
    let first = tn_refusal::explain(alloc, name, text, refusal);
    let second = tn_refusal::explain(alloc, name, text, refusal);
    (first, second)
}

/// `tn_refusal::explain_term` has one answer but for what follows the words of the rule, which says what breaks it.
pub fn term_line<A: Allocator + Copy>(
    alloc: A,
    name: &str,
    text: &[u8],
    refusal: Refusal,
) -> (
    Result<Vec<u8, A>, AllocError>,
    Result<Vec<u8, A>, AllocError>,
)
    requires { IsPlaced text.now (refused_part (refusal_of refusal)) }
    ensures { IfOk result.0 (λ v. IfOk result.1 (λ w. BeginAlike name.now (refusal_of refusal) v.items w.items)) }
{
    let first = tn_refusal::explain_term(alloc, name, text, refusal);
    let second = tn_refusal::explain_term(alloc, name, text, refusal);
    (first, second)
}
