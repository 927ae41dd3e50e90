// Names without control characters.
ghost use Rattle.std.specs.Prelude.{◌≡◌, IfOk};

use std::alloc::{AllocError, Allocator};

/// `tn_notice::escape_controls` has one answer for one text.
pub fn escape_controls<A: Allocator + Copy>(
    alloc: A,
    text: &str,
) -> (
    Result<Vec<u8, A>, AllocError>,
    Result<Vec<u8, A>, AllocError>,
)
    ensures { IfOk result.0 (λ v. IfOk result.1 (λ w. v.items ≡ w.items)) }
{
    (
        tn_notice::escape_controls(alloc, text),
        tn_notice::escape_controls(alloc, text),
    )
}
