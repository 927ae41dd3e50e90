// The tokens of a fun's text.
ghost use Rattle.std.specs.Prelude.{◌≡◌, map, IfOk};
ghost use Rattle.tn_fun.specs.Tokens.{span_seen};

use std::alloc::{AllocError, Allocator};
use tn_fun::Token;

/// `tn_fun::tokens` has one answer.
pub fn all_fun_tokens<A: Allocator + Copy>(
    alloc: A,
    bytes: &[u8],
) -> (
    Result<Vec<Token, A>, AllocError>,
    Result<Vec<Token, A>, AllocError>,
)
    ensures { IfOk result.0 (λ v. IfOk result.1 (λ w. map (span_seen bytes.now) v.items
        ≡ map (span_seen bytes.now) w.items)) }
{
    (tn_fun::tokens(alloc, bytes), tn_fun::tokens(alloc, bytes))
}
