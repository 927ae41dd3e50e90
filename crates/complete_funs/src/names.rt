// What tokens of a fun's text spell.
ghost use Rattle.std.specs.Prelude.{◌≡◌, IfOk};

use std::alloc::{AllocError, Allocator};
use tn_fun::Token;

/// `tn_fun::token_bytes` has one answer.
pub fn token_bytes<'a>(bytes: &'a [u8], token: Token) -> (&'a [u8], &'a [u8])
    ensures { result.0.now ≡ result.1.now }
{
    (
        tn_fun::token_bytes(bytes, token),
        tn_fun::token_bytes(bytes, token),
    )
}

/// `tn_fun::name_of` has one answer.
pub fn name_of<A: Allocator + Copy>(
    alloc: A,
    bytes: &[u8],
    token: Token,
) -> (
    Result<Vec<u8, A>, AllocError>,
    Result<Vec<u8, A>, AllocError>,
)
    ensures { IfOk result.0 (λ v. IfOk result.1 (λ w. v.items ≡ w.items)) }
{
    let first = tn_fun::name_of(alloc, bytes, token);
    let second = tn_fun::name_of(alloc, bytes, token);
    (first, second)
}

/// `tn_fun::string_codes` has one answer.
pub fn string_codes<A: Allocator + Copy>(
    alloc: A,
    bytes: &[u8],
    token: Token,
) -> (
    Result<Vec<u8, A>, AllocError>,
    Result<Vec<u8, A>, AllocError>,
)
    ensures { IfOk result.0 (λ v. IfOk result.1 (λ w. v.items ≡ w.items)) }
{
    let first = tn_fun::string_codes(alloc, bytes, token);
    let second = tn_fun::string_codes(alloc, bytes, token);
    (first, second)
}
