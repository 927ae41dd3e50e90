// The names and the codes that tokens of a text spell.
ghost use Rattle.std.specs.Prelude.{◌≡◌, ◌-◌, take, drop, IfOk};
ghost use Rattle.tn_fun.specs.Tokens.{quoted_codes as codes_in_quotes};
ghost use Rattle.tn_fun.specs.Trees.{token_name, string_codes as codes_of_string};

use crate::scan::{escaped_code, is_escaped, is_plain};
use crate::token::{Kind, Token};
use std::alloc::{AllocError, Allocator};

/// The bytes from an offset on; none past the end.
fn bytes_from(bytes: &[u8], from: usize) -> &[u8]
    ensures { result.now ≡ drop from bytes.now }
{
    if from > bytes.len() {
        return &[];
    }
    &bytes[from..]
}

/// At most so many bytes.
fn first_bytes(bytes: &[u8], len: usize) -> &[u8]
    ensures { result.now ≡ take len bytes.now }
{
    if len > bytes.len() {
        return bytes;
    }
    &bytes[..len]
}

/// The codes of a quoted text, of the bytes from its first quote on; none where it has no end.
fn quoted_codes<A: Allocator + Copy>(
    alloc: A,
    bytes: &[u8],
    quote: u8,
) -> Result<Vec<u8, A>, AllocError>
    ensures { IfOk result (λ v. v.items ≡ codes_in_quotes quote bytes.now) }
{
    let [_, text @ ..] = bytes else {
        return Ok(Vec::new(alloc));
    };
    let mut codes = Vec::new(alloc);
    let mut escaped = false;
    for b in text {
        if escaped {
            if !is_escaped(*b) {
                return Ok(Vec::new(alloc));
            }
            codes.push(escaped_code(*b))?;
            escaped = false;
        } else if *b == quote {
            return Ok(codes);
        } else if *b == b'\\' {
            escaped = true;
        } else if is_plain(quote, *b) {
            codes.push(*b)?;
        } else {
            return Ok(Vec::new(alloc));
        }
    }
    Ok(Vec::new(alloc))
}

/// The bytes of a token of a text.
pub fn token_bytes(bytes: &[u8], token: Token) -> &[u8]
    ensures { result.now ≡ take (token.to - token.from) (drop token.from bytes.now) }
{
    first_bytes(
        bytes_from(bytes, token.from),
        token.to.saturating_sub(token.from),
    )
}

/// The name that a token of a text spells, where it is an atom or a variable. An error is refused memory.
pub fn name_of<A: Allocator + Copy>(
    alloc: A,
    bytes: &[u8],
    token: Token,
) -> Result<Vec<u8, A>, AllocError>
    ensures { IfOk result (λ v. v.items ≡ token_name bytes.now token) }
{
    match token.kind {
        Kind::Quoted => quoted_codes(alloc, bytes_from(bytes, token.from), b'\''),
        _ => Vec::from_slice(alloc, token_bytes(bytes, token)),
    }
}

/// The codes that a token of a text spells, where it is a string. An error is refused memory.
pub fn string_codes<A: Allocator + Copy>(
    alloc: A,
    bytes: &[u8],
    token: Token,
) -> Result<Vec<u8, A>, AllocError>
    ensures { IfOk result (λ v. v.items ≡ codes_of_string bytes.now token) }
{
    quoted_codes(alloc, bytes_from(bytes, token.from), b'"')
}
