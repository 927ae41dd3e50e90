// Tokens of a guard.
ghost use Rattle.std.specs.Prelude.{◌≡◌, ◌≤◌, List, ℕ, length, true, Result, IfOk, ◌&&◌, is_some};
ghost use Rattle.def_text.specs.Faults.{FaultKind};
ghost use Rattle.def_fun.specs.Limits.{FUN_DEPTH};
ghost use Rattle.def_fun.specs.Reading as reading;
ghost use Rattle.def_fun.specs.Reading.{ended_expr};
ghost use Rattle.def_fun.specs.Reading.{guard_after, in_guard, fun_step, with_guard as guard_added};
ghost use Rattle.def_fun.specs.Tokens as token;
ghost use Rattle.tn_fun.specs.Tokens.{fun_token_seen, span_seen};
ghost use Rattle.tn_fun.specs.Trees.{fun_row_seen};
ghost use Rattle.tn_fun.specs.States.{expr_state_seen, AreCounted};
ghost use Rattle.tn_fun.specs.FunStates.{clause_so_far_seen, IsCountOf, StepsFun};
ghost use Rattle.tn_fun.specs.FunStates.{ends_condition as condition_ends};

use crate::expr_end::{expr_at_end, expr_start, may_end};
use crate::follow::step;
use crate::fun_state::{ClauseSoFar, FunState};
use crate::part::{ExprState, StepError};
use crate::size::{MAX_CLAUSES, MAX_LIST};
use crate::token::{Kind, Token};
use crate::tree::Expr;
use std::alloc::{AllocError, Allocator};

/// Whether a condition may end with the token.
fn ends_condition(kind: Kind) -> bool
    ensures { (u more : List ℕ) → result ≡ condition_ends (fun_token_seen kind u more) }
{
    match kind {
        Kind::Comma | Kind::Semicolon | Kind::Arrow => true,
        _ => false,
    }
}

/// Whether a condition ends with the token.
fn is_condition_end<A: Allocator>(kind: Kind, state: &ExprState<A>) -> bool
    ensures { (text u more : List ℕ) → result
        ≡ (condition_ends (fun_token_seen kind u more) && is_some (ended_expr (expr_state_seen text state.now))) }
{
    ends_condition(kind) && may_end(state)
}

/// The clause with one guard more.
fn with_guard<A: Allocator>(
    clause: ClauseSoFar<A>,
    conditions: Vec<Expr<A>, A>,
) -> Result<ClauseSoFar<A>, AllocError>
    ensures seen { IfOk result (λ k. (text : List ℕ) → clause_so_far_seen text k
        ≡ guard_added (clause_so_far_seen text clause) (fun_row_seen text conditions.items)) }
    ensures earlier { IfOk result (λ k. k.earlier ≡ clause.earlier) }
{
    let ClauseSoFar {
        earlier,
        at,
        head,
        guards,
    } = clause;
    let mut guards = guards;
    guards.push(conditions)?;
    Ok(ClauseSoFar {
        earlier,
        at,
        head,
        guards,
    })
}

/// A comma after a condition.
fn more_conditions<A: Allocator>(
    alloc: A,
    clause: ClauseSoFar<A>,
    conditions: Vec<Expr<A>, A>,
) -> Result<FunState<A>, StepError>
    ensures { (text : List ℕ) (r : Result reading.FunState FaultKind) → IsCountOf text clause.earlier
        → StepsFun text result (guard_after FUN_DEPTH true (clause_so_far_seen text clause)
        (fun_row_seen text conditions.items) token.comma r) }
{
    if conditions.len() >= MAX_LIST {
        return Err(StepError::TooLarge);
    }
    Ok(FunState::InGuard(clause, conditions, expr_start(alloc)))
}

/// A semicolon after a condition.
fn next_guard<A: Allocator + Copy>(
    alloc: A,
    clause: ClauseSoFar<A>,
    conditions: Vec<Expr<A>, A>,
) -> Result<FunState<A>, StepError>
    ensures { (text : List ℕ) (r : Result reading.FunState FaultKind) → IsCountOf text clause.earlier
        → StepsFun text result (guard_after FUN_DEPTH true (clause_so_far_seen text clause)
        (fun_row_seen text conditions.items) token.semicolon r) }
{
    let guards = clause.guards.len();
    let count = clause.earlier.count.saturating_add(guards);
    if count >= MAX_CLAUSES - 1 {
        return Err(StepError::TooLarge);
    }
    let clause = with_guard(clause, conditions)?;
    Ok(FunState::InGuard(clause, Vec::new(alloc), expr_start(alloc)))
}

/// `->` after a condition.
fn begin_body<A: Allocator + Copy>(
    alloc: A,
    clause: ClauseSoFar<A>,
    conditions: Vec<Expr<A>, A>,
) -> Result<FunState<A>, StepError>
    ensures { (text : List ℕ) (r : Result reading.FunState FaultKind) → IsCountOf text clause.earlier
        → StepsFun text result (guard_after FUN_DEPTH true (clause_so_far_seen text clause)
        (fun_row_seen text conditions.items) token.arrow r) }
{
    let clause = with_guard(clause, conditions)?;
    Ok(FunState::InBody(clause, Vec::new(alloc), expr_start(alloc)))
}

/// The token after a condition, with which that may end.
fn after_condition<A: Allocator + Copy>(
    alloc: A,
    kind: Kind,
    clause: ClauseSoFar<A>,
    conditions: Vec<Expr<A>, A>,
) -> Result<FunState<A>, StepError>
    ensures { (text u more : List ℕ) (r : Result reading.FunState FaultKind)
        → condition_ends (fun_token_seen kind u more) ≡ true → IsCountOf text clause.earlier
        → StepsFun text result (guard_after FUN_DEPTH true (clause_so_far_seen text clause)
        (fun_row_seen text conditions.items) (fun_token_seen kind u more) r) }
{
    match kind {
        Kind::Comma => more_conditions(alloc, clause, conditions),
        Kind::Semicolon => next_guard(alloc, clause, conditions),
        Kind::Arrow => begin_body(alloc, clause, conditions),
        _ => Err(StepError::Misplaced),
    }
}

/// One token of a guard further.
pub fn guard_step<A: Allocator + Copy>(
    alloc: A,
    bytes: &[u8],
    token: Token,
    clause: ClauseSoFar<A>,
    conditions: Vec<Expr<A>, A>,
    state: ExprState<A>,
) -> Result<FunState<A>, StepError>
    requires start { token.from ≤ token.to }
    requires end { token.to ≤ length bytes.now }
    requires clauses { IsCountOf bytes.now clause.earlier }
    requires strings { AreCounted bytes.now state }
    ensures { StepsFun bytes.now result (fun_step FUN_DEPTH true (in_guard (clause_so_far_seen bytes.now clause)
        (fun_row_seen bytes.now conditions.items) (expr_state_seen bytes.now state)) (span_seen bytes.now token)) }
{
    if !is_condition_end(token.kind, &state) {
        let state = step(alloc, bytes, token, false, state)?;
        return Ok(FunState::InGuard(clause, conditions, state));
    }
    let last = expr_at_end(alloc, state)?;
    match last {
        Some(condition) => {
            let mut conditions = conditions;
            conditions.push(condition)?;
            after_condition(alloc, token.kind, clause, conditions)
        }
        None => Err(StepError::Misplaced),
    }
}
