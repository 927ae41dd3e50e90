// Tokens where an operand must come.
ghost use Rattle.std.specs.Prelude.{◌≡◌, ◌≤◌, List, ℕ, [], ◌∷◌, length, Bool, true, false, Option, not, nat_le, nat_lt};
ghost use Rattle.def_fun.specs.Limits.{FUN_DEPTH};
ghost use Rattle.def_fun.specs.Operators.{is_prefix};
ghost use Rattle.def_fun.specs.Reading.{if_placed, wants, has, operand_at, greatest_there};
ghost use Rattle.def_fun.specs.Reading.{may_stand as stands_there};
ghost use Rattle.def_fun.specs.Tokens.{operator};
ghost use Rattle.def_fun.specs.Trees.{whole, strings};
ghost use Rattle.def_fun.specs.Tokens as token;
ghost use Rattle.tn_fun.specs.Sizes.{if_at_most};
ghost use Rattle.tn_fun.specs.Tokens.{operator_seen};
ghost use Rattle.tn_fun.specs.Trees.{fun_expr_seen, string_codes};
ghost use Rattle.tn_fun.specs.States.{open_part_seen, open_parts_seen, token_there, are_strings, StepsExpr};
ghost use Rattle.tn_fun.specs.States.{precedes};

use crate::operator::Operator;
use crate::part::{ExprState, MAX_NESTING, Part, StepError, prefix_of};
use crate::size::{MAX_INTEGER, MAX_LIST, MAX_NAME, codes_len, number_within};
use crate::token::{Kind, Token};
use crate::tree::Expr;
use std::alloc::Allocator;

/// Whether an operand may begin here: in a pattern an integer alone may be after `-`.
fn may_stand<A: Allocator>(pattern: bool, parts: &[Part<A>]) -> bool
    ensures { (text : List ℕ) → result ≡ stands_there pattern (open_parts_seen text parts.now) }
{
    !pattern || prefix_of(parts).is_none()
}

/// The greatest integer that may be here.
fn greatest_of<A: Allocator>(parts: &[Part<A>]) -> u64
    ensures { (text : List ℕ) → result ≡ greatest_there (open_parts_seen text parts.now) }
{
    match prefix_of(parts) {
        Some(Operator::Minus) => MAX_INTEGER + 1,
        _ => MAX_INTEGER,
    }
}

/// An operand of one token, where it may stand and is not too large.
fn put<A: Allocator>(
    operand: Expr<A>,
    placed: bool,
    sized: bool,
    parts: Vec<Part<A>, A>,
) -> Result<ExprState<A>, StepError>
    ensures { (text : List ℕ) → are_strings (fun_expr_seen text operand) ≡ false → StepsExpr text result
        (if_placed placed true sized (has (fun_expr_seen text operand) (open_parts_seen text parts.items))) }
{
    if !placed {
        return Err(StepError::Misplaced);
    }
    if !sized {
        return Err(StepError::TooLarge);
    }
    Ok(ExprState::Has(operand, parts))
}

/// An integer, where it is not too large.
fn put_integer<A: Allocator>(
    at: usize,
    value: Option<u64>,
    parts: Vec<Part<A>, A>,
) -> Result<ExprState<A>, StepError>
    ensures { (text : List ℕ) (n most : ℕ) → value ≡ if_at_most most n → StepsExpr text result
        (if_placed true true (nat_le n most) (has (whole at n) (open_parts_seen text parts.items))) }
{
    match value {
        Some(n) => Ok(ExprState::Has(Expr::Integer(at, n), parts)),
        None => Err(StepError::TooLarge),
    }
}

/// The code of a character.
fn put_character<A: Allocator>(
    at: usize,
    code: u8,
    parts: Vec<Part<A>, A>,
) -> Result<ExprState<A>, StepError>
    ensures { (text : List ℕ) → StepsExpr text result
        (if_placed true true (nat_le code (greatest_there (open_parts_seen text parts.items)))
        (has (whole at code) (open_parts_seen text parts.items))) }
{
    Ok(ExprState::Has(Expr::Integer(at, u64::from(code)), parts))
}

/// A string, where it may stand and is not too large.
fn put_string<A: Allocator>(
    alloc: A,
    bytes: &[u8],
    token: Token,
    placed: bool,
    parts: Vec<Part<A>, A>,
) -> Result<ExprState<A>, StepError>
    requires start { token.from ≤ length bytes.now }
    ensures { StepsExpr bytes.now result
        (if_placed placed true (nat_le (length (string_codes bytes.now token)) MAX_LIST)
        (has (strings token.from (string_codes bytes.now token) []) (open_parts_seen bytes.now parts.items))) }
{
    let codes = codes_len(&bytes[token.from..], b'"');
    if !placed {
        return Err(StepError::Misplaced);
    }
    if codes > MAX_LIST {
        return Err(StepError::TooLarge);
    }
    Ok(ExprState::HasStrings(token, Vec::new(alloc), codes, parts))
}

/// One more part waits for its end, where it may stand and there is a level for it.
pub fn open<A: Allocator>(
    part: Part<A>,
    placed: bool,
    parts: Vec<Part<A>, A>,
) -> Result<ExprState<A>, StepError>
    ensures { (text : List ℕ) → StepsExpr text result (if_placed placed
        (nat_lt (length (open_parts_seen text parts.items)) FUN_DEPTH) true
        (wants (open_part_seen text part ∷ open_parts_seen text parts.items))) }
{
    if !placed {
        return Err(StepError::Misplaced);
    }
    if parts.len() >= MAX_NESTING {
        return Err(StepError::TooDeep);
    }
    let mut parts = parts;
    parts.push(part)?;
    Ok(ExprState::Wants(parts))
}

/// Whether the operator may be before an operand here.
fn may_precede<A: Allocator>(operator: Operator, pattern: bool, parts: &[Part<A>]) -> bool
    ensures { (text : List ℕ) → result ≡ precedes pattern (operator_seen operator) (open_parts_seen text parts.now) }
{
    match operator {
        Operator::Minus => may_stand(pattern, parts),
        Operator::BitNot | Operator::Negation => !pattern,
        _ => false,
    }
}

/// A list without elements.
fn end_list<A: Allocator>(parts: Vec<Part<A>, A>) -> Result<ExprState<A>, StepError>
    ensures { (text : List ℕ) (pattern : Bool) (at : ℕ) → StepsExpr text result
        (operand_at pattern FUN_DEPTH true (open_parts_seen text parts.items) at token.close_bracket) }
{
    let mut parts = parts;
    let Some(part) = parts.pop() else {
        return Err(StepError::Misplaced);
    };
    match part {
        Part::List(at, items) => {
            if items.is_empty() {
                Ok(ExprState::Has(Expr::List(at, items), parts))
            } else {
                Err(StepError::Misplaced)
            }
        }
        _ => Err(StepError::Misplaced),
    }
}

/// A tuple without elements.
fn end_tuple<A: Allocator>(parts: Vec<Part<A>, A>) -> Result<ExprState<A>, StepError>
    ensures { (text : List ℕ) (pattern : Bool) (at : ℕ) → StepsExpr text result
        (operand_at pattern FUN_DEPTH true (open_parts_seen text parts.items) at token.close_brace) }
{
    let mut parts = parts;
    let Some(part) = parts.pop() else {
        return Err(StepError::Misplaced);
    };
    match part {
        Part::Tuple(at, items) => {
            if items.is_empty() {
                Ok(ExprState::Has(Expr::Tuple(at, items), parts))
            } else {
                Err(StepError::Misplaced)
            }
        }
        _ => Err(StepError::Misplaced),
    }
}

/// A call without arguments.
fn end_call<A: Allocator>(parts: Vec<Part<A>, A>) -> Result<ExprState<A>, StepError>
    ensures { (text : List ℕ) (pattern : Bool) (at : ℕ) → StepsExpr text result
        (operand_at pattern FUN_DEPTH true (open_parts_seen text parts.items) at token.close_paren) }
{
    let mut parts = parts;
    let Some(part) = parts.pop() else {
        return Err(StepError::Misplaced);
    };
    match part {
        Part::Call(name, items) => {
            if items.is_empty() {
                Ok(ExprState::Has(Expr::Call(name, items), parts))
            } else {
                Err(StepError::Misplaced)
            }
        }
        _ => Err(StepError::Misplaced),
    }
}

/// A token where an operand must come.
pub fn operand<A: Allocator + Copy>(
    alloc: A,
    bytes: &[u8],
    token: Token,
    pattern: bool,
    parts: Vec<Part<A>, A>,
) -> Result<ExprState<A>, StepError>
    requires start { token.from ≤ token.to }
    requires end { token.to ≤ length bytes.now }
    ensures { StepsExpr bytes.now result (operand_at pattern FUN_DEPTH true (open_parts_seen bytes.now parts.items)
        token.from (token_there bytes.now token)) }
{
    let at = token.from;
    let len = token.to - at;
    let placed = may_stand(pattern, &parts);
    match token.kind {
        Kind::Variable => put(Expr::Variable(token), placed, len <= MAX_NAME, parts),
        Kind::Bare => put(Expr::Atom(token), placed, len <= MAX_NAME, parts),
        Kind::Quoted => {
            let codes = codes_len(&bytes[at..], b'\'');
            put(Expr::Atom(token), placed, codes <= MAX_NAME, parts)
        }
        Kind::Characters => put_string(alloc, bytes, token, placed, parts),
        Kind::Digits => {
            let most = greatest_of(&parts);
            put_integer(at, number_within(&bytes[at..token.to], most), parts)
        }
        Kind::Character(code) => put_character(at, code, parts),
        Kind::Operator(operator) => {
            let placed = may_precede(operator, pattern, &parts);
            open(Part::Prefix(at, operator), placed, parts)
        }
        Kind::OpenParen => open(Part::Parens(at), !pattern, parts),
        Kind::OpenBracket => open(Part::List(at, Vec::new(alloc)), placed, parts),
        Kind::OpenBrace => open(Part::Tuple(at, Vec::new(alloc)), placed, parts),
        Kind::CloseBracket => end_list(parts),
        Kind::CloseBrace => end_tuple(parts),
        Kind::CloseParen => end_call(parts),
        _ => Err(StepError::Misplaced),
    }
}
