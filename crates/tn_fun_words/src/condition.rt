// The texts of conditions.
ghost use Rattle.std.specs.Prelude.{◌≡◌, ◌++◌, ◌+◌, ◌<◌, ◌≤◌, ℕ, List, drop, map, OnOk};
ghost use Rattle.def_fun.specs.Scan.{fun_spans};
ghost use Rattle.def_fun_words.specs.Words.{open_after as open_after_token, is_separator, is_condition_end, spans_at};
ghost use Rattle.def_fun_words.specs.Words.{blank_between, condition_text};
ghost use Rattle.tn_fun.specs.Tokens.{fun_token_seen, span_seen};
ghost use Rattle.tn_fun.specs.Trees.{fun_expr_seen};

use std::alloc::{AllocError, Allocator};
use tn_fun::{Expr, Kind, Token, first_byte, token_bytes};

/// Whether it is a `,`, a `;` or `->`.
fn is_separator(kind: Kind) -> bool
    ensures { (u more : List ℕ) → result ≡ is_separator (fun_token_seen kind u more) }
{
    match kind {
        Kind::Comma | Kind::Semicolon | Kind::Arrow => true,
        _ => false,
    }
}

/// Whether a condition ends before the token, where so many brackets are open.
fn is_condition_end(depth: usize, kind: Kind) -> bool
    ensures { (u more : List ℕ) → result ≡ is_condition_end depth (fun_token_seen kind u more) }
{
    depth == 0 && is_separator(kind)
}

/// How many brackets are open after the token.
fn open_after(depth: usize, kind: Kind) -> usize
    requires { depth < usize.MAX }
    ensures open { (u more : List ℕ) → result ≡ open_after_token depth (fun_token_seen kind u more) }
    ensures grows { result ≤ depth + 1 }
{
    match kind {
        Kind::OpenParen | Kind::OpenBracket | Kind::OpenBrace => depth + 1,
        Kind::CloseParen | Kind::CloseBracket | Kind::CloseBrace => depth.saturating_sub(1),
        _ => depth,
    }
}

/// The index of the token at an offset; their number where there is none.
fn index_at(tokens: &[Token], at: usize) -> usize
    ensures { (text : List ℕ) → map (span_seen text) (drop result tokens.now)
        ≡ spans_at at (map (span_seen text) tokens.now) }
{
    for i in 0..tokens.len() {
        if tokens[i].from == at {
            return i;
        }
    }
    tokens.len()
}

/// Appends a blank, where a token isn't right after the one that ended there.
fn put_blank<B: Allocator>(end: usize, from: usize, out: &mut Vec<u8, B>) -> Result<(), AllocError>
    ensures { OnOk result (out.new.items ≡ out.old.items ++ blank_between end from) }
{
    if end == from {
        return Ok(());
    }
    Ok(out.push(b' ')?)
}

/// Appends the text of a condition of a guard, of whose text these are the tokens.
pub fn put_condition<A: Allocator, B: Allocator>(
    bytes: &[u8],
    tokens: &[Token],
    condition: &Expr<A>,
    out: &mut Vec<u8, B>,
) -> Result<(), AllocError>
    requires { map (span_seen bytes.now) tokens.now ≡ fun_spans bytes.now }
    ensures { OnOk result (out.new.items
        ≡ out.old.items ++ condition_text bytes.now (fun_expr_seen bytes.now condition.now)) }
{
    let mut end = first_byte(condition);
    let mut depth = 0;
    for i in index_at(tokens, end)..tokens.len() {
        let token = tokens[i];
        if is_condition_end(depth, token.kind) {
            return Ok(());
        }
        put_blank(end, token.from, out)?;
        out.extend_from_slice(token_bytes(bytes, token))?;
        depth = open_after(depth, token.kind);
        end = token.to;
    }
    Ok(())
}
