// Tokens of a body.
ghost use Rattle.std.specs.Prelude.{◌≡◌, ◌≤◌, List, ℕ, length, true, Result, IfOk, ◌&&◌, is_some};
ghost use Rattle.def_text.specs.Faults.{FaultKind};
ghost use Rattle.def_fun.specs.Limits.{FUN_DEPTH};
ghost use Rattle.def_fun.specs.Reading as reading;
ghost use Rattle.def_fun.specs.Reading.{ended_expr};
ghost use Rattle.def_fun.specs.Reading.{body_after, in_fun_body, fun_step, with_clause as clause_added};
ghost use Rattle.def_fun.specs.Tokens as token;
ghost use Rattle.tn_fun.specs.Tokens.{fun_token_seen, span_seen};
ghost use Rattle.tn_fun.specs.Trees.{fun_row_seen};
ghost use Rattle.tn_fun.specs.States.{expr_state_seen, AreCounted};
ghost use Rattle.tn_fun.specs.Clauses.{fun_clauses_seen};
ghost use Rattle.tn_fun.specs.FunStates.{clause_so_far_seen, IsCountOf, StepsFun};
ghost use Rattle.tn_fun.specs.FunStates.{ends_body_expr as body_expr_ends};

use crate::clause::Clause;
use crate::expr_end::{expr_at_end, expr_start, may_end};
use crate::follow::step;
use crate::fun_state::{ClauseSoFar, Earlier, FunState};
use crate::part::{ExprState, StepError};
use crate::size::{MAX_CLAUSES, MAX_LIST};
use crate::token::{Kind, Token};
use crate::tree::Expr;
use std::alloc::{AllocError, Allocator};

/// Whether an expression of a body may end with the token.
fn ends_body_expr(kind: Kind) -> bool
    ensures { (u more : List ℕ) → result ≡ body_expr_ends (fun_token_seen kind u more) }
{
    match kind {
        Kind::Comma | Kind::Semicolon | Kind::End => true,
        _ => false,
    }
}

/// Whether an expression of a body ends with the token.
fn is_body_expr_end<A: Allocator>(kind: Kind, state: &ExprState<A>) -> bool
    ensures { (text u more : List ℕ) → result
        ≡ (body_expr_ends (fun_token_seen kind u more) && is_some (ended_expr (expr_state_seen text state.now))) }
{
    ends_body_expr(kind) && may_end(state)
}

/// The clauses with this one.
fn with_clause<A: Allocator>(
    clause: ClauseSoFar<A>,
    body: Vec<Expr<A>, A>,
) -> Result<Vec<Clause<A>, A>, AllocError>
    ensures { IfOk result (λ v. (text : List ℕ) → fun_clauses_seen text v.items
        ≡ clause_added (clause_so_far_seen text clause) (fun_row_seen text body.items)) }
{
    let ClauseSoFar {
        earlier,
        at,
        head,
        guards,
    } = clause;
    let mut clauses = earlier.clauses;
    clauses.push(Clause {
        at,
        head,
        guards,
        body,
    })?;
    Ok(clauses)
}

/// A comma after an expression of a body.
fn more_of_body<A: Allocator>(
    alloc: A,
    clause: ClauseSoFar<A>,
    body: Vec<Expr<A>, A>,
) -> Result<FunState<A>, StepError>
    ensures { (text : List ℕ) (r : Result reading.FunState FaultKind) → IsCountOf text clause.earlier
        → StepsFun text result (body_after FUN_DEPTH true (clause_so_far_seen text clause)
        (fun_row_seen text body.items) token.comma r) }
{
    if body.len() >= MAX_LIST {
        return Err(StepError::TooLarge);
    }
    Ok(FunState::InBody(clause, body, expr_start(alloc)))
}

/// A semicolon after an expression of a body.
fn next_clause<A: Allocator>(
    clause: ClauseSoFar<A>,
    body: Vec<Expr<A>, A>,
) -> Result<FunState<A>, StepError>
    ensures { (text : List ℕ) (r : Result reading.FunState FaultKind) → IsCountOf text clause.earlier
        → StepsFun text result (body_after FUN_DEPTH true (clause_so_far_seen text clause)
        (fun_row_seen text body.items) token.semicolon r) }
{
    let alternatives = clause.guards.len().max(1);
    let count = clause.earlier.count.saturating_add(alternatives);
    if count >= MAX_CLAUSES {
        return Err(StepError::TooLarge);
    }
    let clauses = with_clause(clause, body)?;
    Ok(FunState::BeforeClause(Earlier { clauses, count }))
}

/// `end` after an expression of a body.
fn end_fun<A: Allocator>(
    clause: ClauseSoFar<A>,
    body: Vec<Expr<A>, A>,
) -> Result<FunState<A>, StepError>
    ensures { (text : List ℕ) (r : Result reading.FunState FaultKind)
        → StepsFun text result (body_after FUN_DEPTH true (clause_so_far_seen text clause)
        (fun_row_seen text body.items) token.end_word r) }
{
    let clauses = with_clause(clause, body)?;
    Ok(FunState::AfterEnd(clauses))
}

/// The token after an expression of a body, with which that may end.
fn after_body_expr<A: Allocator>(
    alloc: A,
    kind: Kind,
    clause: ClauseSoFar<A>,
    body: Vec<Expr<A>, A>,
) -> Result<FunState<A>, StepError>
    ensures { (text u more : List ℕ) (r : Result reading.FunState FaultKind)
        → body_expr_ends (fun_token_seen kind u more) ≡ true → IsCountOf text clause.earlier
        → StepsFun text result (body_after FUN_DEPTH true (clause_so_far_seen text clause)
        (fun_row_seen text body.items) (fun_token_seen kind u more) r) }
{
    match kind {
        Kind::Comma => more_of_body(alloc, clause, body),
        Kind::Semicolon => next_clause(clause, body),
        Kind::End => end_fun(clause, body),
        _ => Err(StepError::Misplaced),
    }
}

/// One token of a body further.
pub fn body_step<A: Allocator + Copy>(
    alloc: A,
    bytes: &[u8],
    token: Token,
    clause: ClauseSoFar<A>,
    body: Vec<Expr<A>, A>,
    state: ExprState<A>,
) -> Result<FunState<A>, StepError>
    requires start { token.from ≤ token.to }
    requires end { token.to ≤ length bytes.now }
    requires clauses { IsCountOf bytes.now clause.earlier }
    requires strings { AreCounted bytes.now state }
    ensures { StepsFun bytes.now result (fun_step FUN_DEPTH true (in_fun_body (clause_so_far_seen bytes.now clause)
        (fun_row_seen bytes.now body.items) (expr_state_seen bytes.now state)) (span_seen bytes.now token)) }
{
    if !is_body_expr_end(token.kind, &state) {
        let state = step(alloc, bytes, token, false, state)?;
        return Ok(FunState::InBody(clause, body, state));
    }
    let last = expr_at_end(alloc, state)?;
    match last {
        Some(expr) => {
            let mut body = body;
            body.push(expr)?;
            after_body_expr(alloc, token.kind, clause, body)
        }
        None => Err(StepError::Misplaced),
    }
}
