// All tokens of a text.
ghost use Rattle.std.specs.Prelude.{◌≡◌, ◌≤◌, ◌<◌, length, map, IfOk, IfSome};
ghost use Rattle.def_fun.specs.Scan.{fun_spans};
ghost use Rattle.tn_fun.specs.Tokens.{span_seen, spans_from, next_spans, IsInText};

use crate::scan::front_token;
use crate::token::{Kind, Token};
use std::alloc::{AllocError, Allocator};
use tn_text::gap_len;

/// The token after the blanks and comments at an offset; None where the text ends. Bytes that form no
/// token are one to the end, `Bad`.
pub fn next_at(bytes: &[u8], at: usize) -> Option<Token>
    requires { at ≤ length bytes.now }
    ensures next { spans_from bytes.now at ≡ next_spans bytes.now result }
    ensures within { IfSome result (IsInText bytes.now at) }
{
    let from = at + gap_len(&bytes[at..]);
    let rest = &bytes[from..];
    if rest.is_empty() {
        return None;
    }
    match front_token(rest) {
        Some((kind, len)) => Some(Token {
            kind,
            from,
            to: from + len,
        }),
        None => Some(Token {
            kind: Kind::Bad,
            from,
            to: bytes.len(),
        }),
    }
}

/// The tokens of a text in their order, with their offsets from 0. Bytes that form no token are one
/// token to the end, `Bad`, so that its offset is the first place where none is. Memory that runs out
/// says nothing of the text.
pub fn tokens<A: Allocator>(alloc: A, bytes: &[u8]) -> Result<Vec<Token, A>, AllocError>
    ensures { IfOk result (λ v. map (span_seen bytes.now) v.items ≡ fun_spans bytes.now) }
{
    let mut found = Vec::new(alloc);
    let mut at = 0;
    while let Some(token) = next_at(bytes, at) {
        found.push(token)?;
        at = token.to;
    }
    Ok(found)
}
