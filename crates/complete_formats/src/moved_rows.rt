// An output as JSON, with the number of the move of each message.
ghost use Rattle.std.specs.Prelude.{◌≡◌, IfOk};

use std::alloc::{AllocError, Allocator};

/// `tn_formats::moved_json` has one answer.
pub fn moved_json<A: Allocator + Copy, M: Allocator>(
    alloc: A,
    moves: &[Vec<u32, M>],
    output: &[u8],
) -> (
    Result<Vec<u8, A>, AllocError>,
    Result<Vec<u8, A>, AllocError>,
)
    ensures { IfOk result.0 (λ x. IfOk result.1 (λ y. x.items ≡ y.items)) }
{
    let first = tn_formats::moved_json(alloc, moves, output);
    let second = tn_formats::moved_json(alloc, moves, output);
    (first, second)
}

/// `tn_formats::journal_text` has one answer.
pub fn journal_text<A: Allocator + Copy>(
    alloc: A,
    output: &[u8],
) -> (
    Result<Vec<u8, A>, AllocError>,
    Result<Vec<u8, A>, AllocError>,
)
    ensures { IfOk result.0 (λ x. IfOk result.1 (λ y. x.items ≡ y.items)) }
{
    let first = tn_formats::journal_text(alloc, output);
    let second = tn_formats::journal_text(alloc, output);
    (first, second)
}
