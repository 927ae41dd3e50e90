// A refusal as JSON.
ghost use Rattle.std.specs.Prelude.{◌≡◌, IfOk};

use std::alloc::{AllocError, Allocator};

/// `tn_formats::refusal_json` has one answer.
pub fn refusal_json<A: Allocator + Copy>(
    alloc: A,
    line: &[u8],
    note: &[u8],
) -> (
    Result<Vec<u8, A>, AllocError>,
    Result<Vec<u8, A>, AllocError>,
)
    ensures { IfOk result.0 (λ x. IfOk result.1 (λ y. x.items ≡ y.items)) }
{
    let first = tn_formats::refusal_json(alloc, line, note);
    let second = tn_formats::refusal_json(alloc, line, note);
    (first, second)
}
