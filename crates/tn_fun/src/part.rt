// How far an expression is read.
ghost use Rattle.std.specs.Prelude.{◌≡◌, List, ℕ};
ghost use Rattle.std.specs.Option.{option_map};
ghost use Rattle.tn_fun.specs.Tokens.{operator_seen};
ghost use Rattle.tn_fun.specs.States.{open_parts_seen, prefix_in_front, left_in_front};
ghost use Rattle.tn_fun.specs.declared.part.StepError.TheVariants.{OutOfMemory};

use crate::operator::Operator;
use crate::token::Token;
use crate::tree::Expr;
use std::alloc::{AllocError, AllocFailed, Allocator};

/// How deep brackets, braces, parentheses, calls and operators nest.
pub const MAX_NESTING: usize = 64;

/// What waits for its end: parentheses, a call, a list, a list after its `|`, and a tuple, with the
/// elements before; an operator with its left operand; a prefix.
#[derive(Drop)]
pub enum Part<A: Allocator> {
    Parens(usize),
    Call(Token, Vec<Expr<A>, A>),
    List(usize, Vec<Expr<A>, A>),
    Tail(usize, Vec<Expr<A>, A>),
    Tuple(usize, Vec<Expr<A>, A>),
    Left(usize, Operator, Expr<A>),
    Prefix(usize, Operator),
}

/// An operand comes next, or it came, or strings beside each other came, which have so many codes. The
/// innermost part is the last.
#[derive(Drop)]
pub enum ExprState<A: Allocator> {
    Wants(Vec<Part<A>, A>),
    Has(Expr<A>, Vec<Part<A>, A>),
    HasStrings(Token, Vec<Token, A>, usize, Vec<Part<A>, A>),
}

/// Why a token ends the reading.
#[derive(Clone, Copy)]
pub enum StepError {
    OutOfMemory,
    Misplaced,
    TooDeep,
    TooLarge,
}

impl From<AllocError> for StepError {
    ghost from_gives = { λ _ e. e ≡ OutOfMemory };

    fn from(_refused: AllocError) -> StepError {
        StepError::OutOfMemory
    }
}

impl<T: Drop> From<AllocFailed<T>> for StepError {
    ghost from_gives = { λ _ e. e ≡ OutOfMemory };

    fn from(_refused: AllocFailed<T>) -> StepError {
        StepError::OutOfMemory
    }
}

/// The prefix that waits for the operand that comes next.
pub fn prefix_of<A: Allocator>(parts: &[Part<A>]) -> Option<Operator>
    ensures { (text : List ℕ) → option_map operator_seen result ≡ prefix_in_front (open_parts_seen text parts.now) }
{
    let Some(part) = parts.last() else {
        return None;
    };
    match part {
        Part::Prefix(_, operator) => Some(*operator),
        _ => None,
    }
}

/// The operator whose right operand comes next.
pub fn left_of<A: Allocator>(parts: &[Part<A>]) -> Option<Operator>
    ensures { (text : List ℕ) → option_map operator_seen result ≡ left_in_front (open_parts_seen text parts.now) }
{
    let Some(part) = parts.last() else {
        return None;
    };
    match part {
        Part::Left(_, operator, _) => Some(*operator),
        _ => None,
    }
}
