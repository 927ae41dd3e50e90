// Tokens after an operand.
ghost use Rattle.std.specs.Prelude.{◌≡◌, ◌≤◌, List, ℕ, ◌∷◌, Bool, true, false, not, ◌&&◌, length, map};
ghost use Rattle.def_fun.specs.Limits.{FUN_DEPTH};
ghost use Rattle.def_fun.specs.Tokens as token;
ghost use Rattle.def_fun.specs.Tokens.{characters};
ghost use Rattle.std.specs.Option.{option_map};
ghost use Rattle.def_fun.specs.Trees.{strings};
ghost use Rattle.def_fun.specs.Reading.{OpenPart, comma_after, after_operand, fun_expr_step};
ghost use Rattle.def_fun.specs.Operators.{is_infix as stands_between};
ghost use Rattle.def_fun.specs.Reading.{may_follow as follows_there};
ghost use Rattle.tn_fun.specs.Tokens.{operator_seen, span_seen};
ghost use Rattle.tn_fun.specs.Trees.{fun_expr_seen, string_codes, strings_codes, named_there};
ghost use Rattle.tn_fun.specs.States.{open_part_seen, open_parts_seen, expr_state_seen, token_there};
ghost use Rattle.tn_fun.specs.States.{atom_alone, opens_right, is_string_again, AddsElement, AreCounted, StepsExpr};

use crate::gather::gather;
use crate::level::{is_infix, left_level, level_of, right_level};
use crate::operand::{open, operand};
use crate::operator::Operator;
use crate::part::{ExprState, MAX_NESTING, Part, StepError, left_of};
use crate::size::{MAX_LIST, MAX_TUPLE, codes_len, nesting_of};
use crate::token::{Kind, Token};
use crate::tree::Expr;
use std::alloc::Allocator;

/// Whether the operator may be in the right operand of the one that waits.
fn may_follow<A: Allocator>(operator: Operator, parts: &[Part<A>]) -> bool
    ensures { (text : List ℕ) → result ≡ follows_there (operator_seen operator) (open_parts_seen text parts.now) }
{
    match left_of(parts) {
        Some(left) => right_level(left) <= level_of(operator),
        None => true,
    }
}

/// Whether the operator may be between operands here: in a pattern none may.
fn may_be_between(operator: Operator, pattern: bool) -> bool
    ensures { result ≡ (not pattern && stands_between (operator_seen operator)) }
{
    !pattern && is_infix(operator)
}

/// The operator waits for its right operand, where it may follow and there is a level for it.
fn open_right<A: Allocator>(
    at: usize,
    operator: Operator,
    operand: Expr<A>,
    parts: Vec<Part<A>, A>,
) -> Result<ExprState<A>, StepError>
    ensures { (text : List ℕ) → StepsExpr text result
        (opens_right at (operator_seen operator) (fun_expr_seen text operand) (open_parts_seen text parts.items)) }
{
    if !may_follow(operator, &parts) {
        return Err(StepError::Misplaced);
    }
    if nesting_of(&operand).saturating_add(parts.len() as u64) >= MAX_NESTING as u64 {
        return Err(StepError::TooDeep);
    }
    let mut parts = parts;
    parts.push(Part::Left(at, operator, operand))?;
    Ok(ExprState::Wants(parts))
}

/// An operator after an operand, with those that bind more.
fn operator_after<A: Allocator + Copy>(
    alloc: A,
    at: usize,
    operator: Operator,
    pattern: bool,
    operand: Expr<A>,
    parts: Vec<Part<A>, A>,
) -> Result<ExprState<A>, StepError>
    ensures { (text : List ℕ) → StepsExpr text result (after_operand pattern FUN_DEPTH true (fun_expr_seen text operand)
        (open_parts_seen text parts.items) at (token.operator (operator_seen operator))) }
{
    if !may_be_between(operator, pattern) {
        return Err(StepError::Misplaced);
    }
    let (operand, parts) = gather(alloc, left_level(operator), operand, parts)?;
    open_right(at, operator, operand, parts)
}

/// A string after strings, which have so many codes.
fn string_after<A: Allocator>(
    bytes: &[u8],
    token: Token,
    first: Token,
    others: Vec<Token, A>,
    codes: usize,
    parts: Vec<Part<A>, A>,
) -> Result<ExprState<A>, StepError>
    requires within { token.from ≤ length bytes.now }
    requires counted { codes ≡ length (strings_codes bytes.now first others.items) }
    ensures { (pattern : Bool) (at : ℕ) → StepsExpr bytes.now result (after_operand pattern FUN_DEPTH true
        (strings first.from (string_codes bytes.now first) (map (string_codes bytes.now) others.items))
        (open_parts_seen bytes.now parts.items) at (characters (string_codes bytes.now token))) }
{
    let codes = codes_len(&bytes[token.from..], b'"').saturating_add(codes);
    if codes > MAX_LIST {
        return Err(StepError::TooLarge);
    }
    let mut others = others;
    others.push(token)?;
    Ok(ExprState::HasStrings(first, others, codes, parts))
}

/// The atom that the expression is.
fn atom_of<A: Allocator>(operand: &Expr<A>) -> Option<Token>
    ensures { (text : List ℕ) → option_map (named_there text) result ≡ atom_alone (fun_expr_seen text operand.now) }
{
    match operand {
        Expr::Atom(name) => Some(*name),
        Expr::Variable(_) | Expr::Integer(_, _) | Expr::Strings(_, _) => None,
        Expr::Parens(_, _) | Expr::Before(_, _, _) | Expr::Between(_, _, _, _) => None,
        Expr::Call(_, _) | Expr::List(_, _) | Expr::ListOnto(_, _, _) | Expr::Tuple(_, _) => None,
    }
}

/// A parenthesis after an atom, whose call it opens.
fn open_call<A: Allocator + Copy>(
    alloc: A,
    pattern: bool,
    operand: Expr<A>,
    parts: Vec<Part<A>, A>,
) -> Result<ExprState<A>, StepError>
    ensures { (text : List ℕ) (at : ℕ) → StepsExpr text result (after_operand pattern FUN_DEPTH true
        (fun_expr_seen text operand) (open_parts_seen text parts.items) at token.open_paren) }
{
    match atom_of(&operand) {
        Some(name) => open(Part::Call(name, Vec::new(alloc)), !pattern, parts),
        None => Err(StepError::Misplaced),
    }
}

/// A parenthesis that closes, after the last element.
fn close_paren<A: Allocator + Copy>(
    alloc: A,
    operand: Expr<A>,
    parts: Vec<Part<A>, A>,
) -> Result<ExprState<A>, StepError>
    ensures { (text : List ℕ) (pattern : Bool) (at : ℕ) → StepsExpr text result (after_operand pattern FUN_DEPTH true
        (fun_expr_seen text operand) (open_parts_seen text parts.items) at token.close_paren) }
{
    let (operand, parts) = gather(alloc, 1, operand, parts)?;
    let mut parts = parts;
    let Some(part) = parts.pop() else {
        return Err(StepError::Misplaced);
    };
    match part {
        Part::Parens(at) => Ok(ExprState::Has(Expr::Parens(at, Box::new(alloc, operand)?), parts)),
        Part::Call(name, items) => {
            let mut items = items;
            items.push(operand)?;
            Ok(ExprState::Has(Expr::Call(name, items), parts))
        }
        _ => Err(StepError::Misplaced),
    }
}

/// A square bracket that closes, after the last element or the tail.
fn close_bracket<A: Allocator + Copy>(
    alloc: A,
    operand: Expr<A>,
    parts: Vec<Part<A>, A>,
) -> Result<ExprState<A>, StepError>
    ensures { (text : List ℕ) (pattern : Bool) (at : ℕ) → StepsExpr text result (after_operand pattern FUN_DEPTH true
        (fun_expr_seen text operand) (open_parts_seen text parts.items) at token.close_bracket) }
{
    let (operand, parts) = gather(alloc, 1, operand, parts)?;
    let mut parts = parts;
    let Some(part) = parts.pop() else {
        return Err(StepError::Misplaced);
    };
    match part {
        Part::Tail(at, items) => {
            Ok(ExprState::Has(Expr::ListOnto(at, items, Box::new(alloc, operand)?), parts))
        }
        Part::List(at, items) => {
            let mut items = items;
            items.push(operand)?;
            Ok(ExprState::Has(Expr::List(at, items), parts))
        }
        _ => Err(StepError::Misplaced),
    }
}

/// A brace that closes, after the last element.
fn close_brace<A: Allocator + Copy>(
    alloc: A,
    operand: Expr<A>,
    parts: Vec<Part<A>, A>,
) -> Result<ExprState<A>, StepError>
    ensures { (text : List ℕ) (pattern : Bool) (at : ℕ) → StepsExpr text result (after_operand pattern FUN_DEPTH true
        (fun_expr_seen text operand) (open_parts_seen text parts.items) at token.close_brace) }
{
    let (operand, parts) = gather(alloc, 1, operand, parts)?;
    let mut parts = parts;
    let Some(part) = parts.pop() else {
        return Err(StepError::Misplaced);
    };
    match part {
        Part::Tuple(at, items) => {
            let mut items = items;
            items.push(operand)?;
            Ok(ExprState::Has(Expr::Tuple(at, items), parts))
        }
        _ => Err(StepError::Misplaced),
    }
}

/// A bar after the last element before a tail.
fn bar<A: Allocator + Copy>(
    alloc: A,
    operand: Expr<A>,
    parts: Vec<Part<A>, A>,
) -> Result<ExprState<A>, StepError>
    ensures { (text : List ℕ) (pattern : Bool) (at : ℕ) → StepsExpr text result (after_operand pattern FUN_DEPTH true
        (fun_expr_seen text operand) (open_parts_seen text parts.items) at token.bar) }
{
    let (operand, parts) = gather(alloc, 1, operand, parts)?;
    let mut parts = parts;
    let Some(part) = parts.pop() else {
        return Err(StepError::Misplaced);
    };
    match part {
        Part::List(at, items) => {
            let mut items = items;
            items.push(operand)?;
            parts.push(Part::Tail(at, items))?;
            Ok(ExprState::Wants(parts))
        }
        _ => Err(StepError::Misplaced),
    }
}

/// The part with one element more, where there may be another after it.
fn with_element<A: Allocator>(part: Part<A>, operand: Expr<A>) -> Result<Part<A>, StepError>
    ensures { (text : List ℕ) (pattern : Bool) (fs : List OpenPart) → AddsElement text result
        (comma_after pattern FUN_DEPTH true (fun_expr_seen text operand) (open_part_seen text part ∷ fs)) fs }
{
    match part {
        Part::Call(name, items) => {
            let mut items = items;
            items.push(operand)?;
            Ok(Part::Call(name, items))
        }
        Part::List(at, items) => {
            let mut items = items;
            items.push(operand)?;
            if items.len() >= MAX_LIST {
                return Err(StepError::TooLarge);
            }
            Ok(Part::List(at, items))
        }
        Part::Tuple(at, items) => {
            let mut items = items;
            items.push(operand)?;
            if items.len() >= MAX_TUPLE {
                return Err(StepError::TooLarge);
            }
            Ok(Part::Tuple(at, items))
        }
        _ => Err(StepError::Misplaced),
    }
}

/// A comma after an element.
fn comma<A: Allocator + Copy>(
    alloc: A,
    operand: Expr<A>,
    parts: Vec<Part<A>, A>,
) -> Result<ExprState<A>, StepError>
    ensures { (text : List ℕ) (pattern : Bool) (at : ℕ) → StepsExpr text result (after_operand pattern FUN_DEPTH true
        (fun_expr_seen text operand) (open_parts_seen text parts.items) at token.comma) }
{
    let (operand, parts) = gather(alloc, 1, operand, parts)?;
    let mut parts = parts;
    let Some(part) = parts.pop() else {
        return Err(StepError::Misplaced);
    };
    let part = with_element(part, operand)?;
    parts.push(part)?;
    Ok(ExprState::Wants(parts))
}

/// A token after an operand; no string after strings.
fn follow<A: Allocator + Copy>(
    alloc: A,
    token: Token,
    pattern: bool,
    operand: Expr<A>,
    parts: Vec<Part<A>, A>,
) -> Result<ExprState<A>, StepError>
    ensures { (text : List ℕ) → is_string_again token.kind (fun_expr_seen text operand) ≡ false → StepsExpr text result
        (after_operand pattern FUN_DEPTH true (fun_expr_seen text operand) (open_parts_seen text parts.items)
        token.from (token_there text token)) }
{
    match token.kind {
        Kind::Operator(operator) => operator_after(
            alloc, token.from, operator, pattern, operand, parts,
        ),
        Kind::OpenParen => open_call(alloc, pattern, operand, parts),
        Kind::CloseParen => close_paren(alloc, operand, parts),
        Kind::CloseBracket => close_bracket(alloc, operand, parts),
        Kind::CloseBrace => close_brace(alloc, operand, parts),
        Kind::Comma => comma(alloc, operand, parts),
        Kind::Bar => bar(alloc, operand, parts),
        _ => Err(StepError::Misplaced),
    }
}

/// One token of an expression or a pattern further.
pub fn step<A: Allocator + Copy>(
    alloc: A,
    bytes: &[u8],
    token: Token,
    pattern: bool,
    state: ExprState<A>,
) -> Result<ExprState<A>, StepError>
    requires start { token.from ≤ token.to }
    requires end { token.to ≤ length bytes.now }
    requires counted { AreCounted bytes.now state }
    ensures { StepsExpr bytes.now result
        (fun_expr_step pattern FUN_DEPTH true (expr_state_seen bytes.now state) (span_seen bytes.now token)) }
{
    match state {
        ExprState::Wants(parts) => operand(alloc, bytes, token, pattern, parts),
        ExprState::Has(operand, parts) => follow(alloc, token, pattern, operand, parts),
        ExprState::HasStrings(first, others, codes, parts) => match token.kind {
            Kind::Characters => string_after(bytes, token, first, others, codes, parts),
            _ => follow(alloc, token, pattern, Expr::Strings(first, others), parts),
        },
    }
}
