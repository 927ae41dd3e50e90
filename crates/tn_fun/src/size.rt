// Sizes of tokens and of trees.
ghost use Rattle.std.specs.Prelude.{◌≡◌, ◌≤◌, ◌<◌, ◌^◌, ℕ, List, length, min};
ghost use Rattle.def_text.specs.Tokens.{number};
ghost use Rattle.def_fun.specs.Trees.{nesting_depth, greatest_nesting};
ghost use Rattle.tn_fun.specs.Tokens.{quoted_codes};
ghost use Rattle.tn_fun.specs.Trees.{fun_expr_seen, fun_exprs_seen};
ghost use Rattle.tn_fun.specs.Sizes.{if_at_most};

use crate::scan::{is_escaped, is_plain};
use crate::tree::Expr;
use std::alloc::Allocator;

/// The most bytes or codes of the name of an atom or a variable.
pub const MAX_NAME: usize = 255;

/// The most elements of a tuple.
pub const MAX_TUPLE: usize = 255;

/// The most elements of a list, and the most codes of strings beside each other.
pub const MAX_LIST: usize = 4096;

/// The most clauses of a specification.
pub const MAX_CLAUSES: usize = 4096;

/// The greatest integer of a text; right after a prefix `-` it may be one more.
pub const MAX_INTEGER: u64 = 9223372036854775807;

/// How many codes a quoted text has, of the bytes from its first quote on; 0 where it has no end.
pub fn codes_len(bytes: &[u8], quote: u8) -> usize
    ensures value { result ≡ length (quoted_codes quote bytes.now) }
{
    let [_, text @ ..] = bytes else {
        return 0;
    };
    let mut count = 0;
    let mut escaped = false;
    for b in text {
        if escaped {
            if !is_escaped(*b) {
                return 0;
            }
            count += 1;
            escaped = false;
        } else if *b == quote {
            return count;
        } else if *b == b'\\' {
            escaped = true;
        } else if is_plain(quote, *b) {
            count += 1;
        } else {
            return 0;
        }
    }
    0
}

/// The number that decimal digits spell, where it is at most that.
pub fn number_within(digits: &[u8], greatest: u64) -> Option<u64>
    ensures { result ≡ if_at_most greatest (number digits.now) }
{
    let most = u128::from(greatest);
    let mut value: u128 = 0;
    for d in digits {
        value = value * 10 + u128::from((*d).saturating_sub(b'0'));
        if value > most {
            return None;
        }
    }
    Some(value as u64)
}

/// How deep the expression nests.
#[cycle(nesting)]
pub fn nesting_of<A: Allocator>(expr: &Expr<A>) -> u64
    ensures { (text : List ℕ) → result ≡ min (nesting_depth (fun_expr_seen text expr.now)) u64.MAX }
{
    match expr {
        Expr::Variable(_) | Expr::Integer(_, _) | Expr::Atom(_) | Expr::Strings(_, _) => 0,
        Expr::Parens(_, inner) | Expr::Before(_, _, inner) => nesting_of(inner).saturating_add(1),
        Expr::Call(_, items) | Expr::List(_, items) | Expr::Tuple(_, items) => {
            deepest(items).saturating_add(1)
        }
        Expr::ListOnto(_, items, tail) => deepest(items).max(nesting_of(tail)).saturating_add(1),
        Expr::Between(_, _, left, right) => nesting_of(left)
            .max(nesting_of(right))
            .saturating_add(1),
    }
}

/// The greatest nesting of the expressions; 0 where there are none.
#[cycle(nesting)]
fn deepest<A: Allocator>(items: &Vec<Expr<A>, A>) -> u64
    ensures { (text : List ℕ) → result ≡ min (greatest_nesting (fun_exprs_seen text items.now.items)) u64.MAX }
{
    let mut greatest = 0;
    for item in items {
        greatest = nesting_of(item).max(greatest);
    }
    greatest
}
