// The lines that explain refusals.
ghost use Rattle.std.specs.Prelude.{◌≡◌, IfOk};
ghost use Rattle.tn_refusal.specs.Refusals.{refusal_of};
ghost use Rattle.complete_scripts.specs.Lines.{HasOneLine};

use std::alloc::{AllocError, Allocator};
use tn_refusal::Refusal;

/// `tn_refusal::explain` has one answer for a refusal of picks, and for one that is the text's and of no token.
pub fn whole_line<A: Allocator + Copy>(
    alloc: A,
    name: &str,
    text: &[u8],
    refusal: Refusal,
) -> (
    Result<Vec<u8, A>, AllocError>,
    Result<Vec<u8, A>, AllocError>,
)
    requires { HasOneLine text.now (refusal_of refusal) }
    ensures { IfOk result.0 (λ v. IfOk result.1 (λ w. v.items ≡ w.items)) }
{
    let first = tn_refusal::explain(alloc, name, text, refusal);
    let second = tn_refusal::explain(alloc, name, text, refusal);
    (first, second)
}

/// `tn_refusal::explain_term` has one answer for a refusal that is the text's and of no token.
pub fn whole_term_line<A: Allocator + Copy>(
    alloc: A,
    name: &str,
    text: &[u8],
    refusal: Refusal,
) -> (
    Result<Vec<u8, A>, AllocError>,
    Result<Vec<u8, A>, AllocError>,
)
    requires { HasOneLine text.now (refusal_of refusal) }
    ensures { IfOk result.0 (λ v. IfOk result.1 (λ w. v.items ≡ w.items)) }
{
    let first = tn_refusal::explain_term(alloc, name, text, refusal);
    let second = tn_refusal::explain_term(alloc, name, text, refusal);
    (first, second)
}
