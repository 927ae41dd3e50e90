// Where an expression may end.
ghost use Rattle.std.specs.Prelude.{◌≡◌, List, ℕ, IfOk, is_some};
ghost use Rattle.std.specs.Option.{option_map};
ghost use Rattle.def_fun.specs.Reading.{ended_expr, if_none_open, whole_operand, expr_start as start_of_expr};
ghost use Rattle.tn_fun.specs.Trees.{fun_expr_seen};
ghost use Rattle.tn_fun.specs.States.{open_part_seen, open_parts_seen, expr_state_seen, AreCounted};
ghost use Rattle.tn_fun.specs.FunStates.{waits_for_operand, wait_for_operands, is_expr_start};

use crate::gather::gather;
use crate::part::{ExprState, Part};
use crate::tree::Expr;
use std::alloc::{AllocError, Allocator};

/// Nothing of an expression is read yet.
pub fn expr_start<A: Allocator>(alloc: A) -> ExprState<A>
    ensures start { (text : List ℕ) → expr_state_seen text result ≡ start_of_expr }
    ensures counted { (text : List ℕ) → AreCounted text result }
{
    ExprState::Wants(Vec::new(alloc))
}

/// Whether nothing of an expression is read yet.
pub fn is_start<A: Allocator>(state: &ExprState<A>) -> bool
    ensures { (text : List ℕ) → result ≡ is_expr_start (expr_state_seen text state.now) }
{
    match state {
        ExprState::Wants(parts) => parts.is_empty(),
        ExprState::Has(_, _) | ExprState::HasStrings(_, _, _, _) => false,
    }
}

/// Whether an operator waits for its operand here, and no bracket is open.
fn is_operator<A: Allocator>(part: &Part<A>) -> bool
    ensures { (text : List ℕ) → result ≡ waits_for_operand (open_part_seen text part.now) }
{
    match part {
        Part::Left(_, _, _) | Part::Prefix(_, _) => true,
        Part::Parens(_) | Part::Call(_, _) => false,
        Part::List(_, _) | Part::Tail(_, _) | Part::Tuple(_, _) => false,
    }
}

/// Whether no bracket is open.
fn none_open<A: Allocator>(parts: &[Part<A>]) -> bool
    ensures { (text : List ℕ) → result ≡ wait_for_operands (open_parts_seen text parts.now) }
{
    for part in parts {
        if !is_operator(part) {
            return false;
        }
    }
    true
}

/// Whether the expression may end here: an operand came, and no bracket is open.
pub fn may_end<A: Allocator>(state: &ExprState<A>) -> bool
    ensures { (text : List ℕ) → result ≡ is_some (ended_expr (expr_state_seen text state.now)) }
{
    match state {
        ExprState::Wants(_) => false,
        ExprState::Has(_, parts) => none_open(parts),
        ExprState::HasStrings(_, _, _, parts) => none_open(parts),
    }
}

/// The operand with all operators that wait for it, where no bracket is open.
fn without_parts<A: Allocator + Copy>(
    alloc: A,
    operand: Expr<A>,
    parts: Vec<Part<A>, A>,
) -> Result<Option<Expr<A>>, AllocError>
    ensures { IfOk result (λ o. (text : List ℕ) → option_map (fun_expr_seen text) o
        ≡ if_none_open (whole_operand (fun_expr_seen text operand) (open_parts_seen text parts.items))) }
{
    let (operand, parts) = gather(alloc, 1, operand, parts)?;
    if parts.is_empty() {
        Ok(Some(operand))
    } else {
        Ok(None)
    }
}

/// The expression, where it may end here.
pub fn expr_at_end<A: Allocator + Copy>(
    alloc: A,
    state: ExprState<A>,
) -> Result<Option<Expr<A>>, AllocError>
    ensures { IfOk result (λ o. (text : List ℕ) → option_map (fun_expr_seen text) o
        ≡ ended_expr (expr_state_seen text state)) }
{
    match state {
        ExprState::Wants(_) => Ok(None),
        ExprState::Has(operand, parts) => without_parts(alloc, operand, parts),
        ExprState::HasStrings(first, others, _, parts) => {
            without_parts(alloc, Expr::Strings(first, others), parts)
        }
    }
}
