// The formats of a text.
ghost use Rattle.std.specs.Prelude.{◌≡◌, IfOk};

use std::alloc::{AllocError, Allocator};
use tn_formats::Format;

/// `tn_formats::in_format` has one answer.
pub fn in_format<A: Allocator + Copy>(
    alloc: A,
    format: Format,
    text: &[u8],
) -> (
    Result<Vec<u8, A>, AllocError>,
    Result<Vec<u8, A>, AllocError>,
)
    ensures { IfOk result.0 (λ x. IfOk result.1 (λ y. x.items ≡ y.items)) }
{
    let first = tn_formats::in_format(alloc, format, text);
    let second = tn_formats::in_format(alloc, format, text);
    (first, second)
}
