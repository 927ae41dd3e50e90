// Tokens of a head.
ghost use Rattle.std.specs.Prelude.{◌≡◌, ◌≤◌, List, ℕ, length, true, not, ◌&&◌, Result, is_some};
ghost use Rattle.def_text.specs.Faults.{FaultKind};
ghost use Rattle.def_fun.specs.Limits.{FUN_DEPTH};
ghost use Rattle.def_fun.specs.Reading as reading;
ghost use Rattle.def_fun.specs.Reading.{ended_expr};
ghost use Rattle.def_fun.specs.Reading.{head_after, head_of_parts, head_step as step_of_head};
ghost use Rattle.def_fun.specs.Reading.{begins_head as head_begins};
ghost use Rattle.def_fun.specs.Trees.{is_variable_expr};
ghost use Rattle.tn_fun.specs.Tokens.{fun_token_seen, span_seen};
ghost use Rattle.tn_fun.specs.Trees.{fun_expr_seen};
ghost use Rattle.tn_fun.specs.States.{expr_state_seen, AreCounted};
ghost use Rattle.tn_fun.specs.Clauses.{fun_head_seen, fun_clauses_seen, first_seen};
ghost use Rattle.tn_fun.specs.FunStates.{list_may_be, is_expr_start, ends_head as head_ends, IsCountOf, StepsFun};

use crate::clause::Head;
use crate::expr_end::{expr_at_end, expr_start, is_start, may_end};
use crate::follow::step;
use crate::fun_state::{ClauseSoFar, FunState, HeadSoFar};
use crate::part::{ExprState, StepError};
use crate::token::{Kind, Token};
use crate::tree::Expr;
use std::alloc::Allocator;

/// Whether the expression is a variable.
fn is_variable<A: Allocator>(expr: &Expr<A>) -> bool
    ensures { (text : List ℕ) → result ≡ is_variable_expr (fun_expr_seen text expr.now) }
{
    match expr {
        Expr::Variable(_) => true,
        Expr::Integer(_, _) | Expr::Atom(_) | Expr::Strings(_, _) => false,
        Expr::Parens(_, _) | Expr::Before(_, _, _) | Expr::Between(_, _, _, _) => false,
        Expr::Call(_, _) | Expr::List(_, _) | Expr::ListOnto(_, _, _) | Expr::Tuple(_, _) => false,
    }
}

/// Whether a list may be the next part of a head: the first, or the one after a variable and `=`.
fn may_be_list<A: Allocator>(first: &Option<Expr<A>>) -> bool
    ensures { (text : List ℕ) → result ≡ list_may_be (first_seen text first.now) }
{
    match first {
        None => true,
        Some(part) => is_variable(part),
    }
}

/// Whether the token begins a part of a head.
fn begins_head<A: Allocator>(kind: Kind, first: &Option<Expr<A>>) -> bool
    ensures { (text u more : List ℕ) → result
        ≡ head_begins (first_seen text first.now) (fun_token_seen kind u more) }
{
    match kind {
        Kind::Variable => true,
        Kind::OpenBracket => may_be_list(first),
        _ => false,
    }
}

/// Whether a part of a head may end with the token.
fn ends_head<A: Allocator>(kind: Kind, first: &Option<Expr<A>>) -> bool
    ensures { (text u more : List ℕ) → result
        ≡ head_ends (first_seen text first.now) (fun_token_seen kind u more) }
{
    match kind {
        Kind::CloseParen => true,
        Kind::Match => first.is_none(),
        _ => false,
    }
}

/// Whether a part of a head ends with the token.
fn is_part_end<A: Allocator>(kind: Kind, first: &Option<Expr<A>>, state: &ExprState<A>) -> bool
    ensures { (text u more : List ℕ) → result ≡ (head_ends (first_seen text first.now) (fun_token_seen kind u more)
        && is_some (ended_expr (expr_state_seen text state.now))) }
{
    ends_head(kind, first) && may_end(state)
}

/// Whether the first token of a part of a head may not begin one.
fn is_wrong_start<A: Allocator>(kind: Kind, first: &Option<Expr<A>>, state: &ExprState<A>) -> bool
    ensures { (text u more : List ℕ) → result ≡ (is_expr_start (expr_state_seen text state.now)
        && not (head_begins (first_seen text first.now) (fun_token_seen kind u more))) }
{
    is_start(state) && !begins_head(kind, first)
}

/// The head of one part or two.
fn head_of<A: Allocator>(first: Option<Expr<A>>, part: Expr<A>) -> Head<A>
    ensures { (text : List ℕ) → fun_head_seen text result
        ≡ head_of_parts (first_seen text first) (fun_expr_seen text part) }
{
    match first {
        None => Head::Alone(part),
        Some(first) => Head::Both(first, part),
    }
}

/// The token after a part of a head, with which that may end.
fn after_part<A: Allocator>(
    alloc: A,
    kind: Kind,
    head: HeadSoFar<A>,
    part: Expr<A>,
) -> Result<FunState<A>, StepError>
    ensures { (text u more : List ℕ) (r : Result reading.FunState FaultKind)
        → head_ends (first_seen text head.first) (fun_token_seen kind u more) ≡ true → IsCountOf text head.earlier
        → StepsFun text result (head_after FUN_DEPTH true (fun_clauses_seen text head.earlier.clauses.items) head.at
        (first_seen text head.first) (fun_expr_seen text part) (fun_token_seen kind u more) r) }
{
    let HeadSoFar { earlier, at, first } = head;
    match kind {
        Kind::CloseParen => {
            let head = head_of(first, part);
            let guards = Vec::new(alloc);
            Ok(FunState::AfterHead(ClauseSoFar {
                earlier,
                at,
                head,
                guards,
            }))
        }
        Kind::Match => {
            let head = HeadSoFar {
                earlier,
                at,
                first: Some(part),
            };
            Ok(FunState::InHead(head, expr_start(alloc)))
        }
        _ => Err(StepError::Misplaced),
    }
}

/// One token of a head further.
pub fn head_step<A: Allocator + Copy>(
    alloc: A,
    bytes: &[u8],
    token: Token,
    head: HeadSoFar<A>,
    state: ExprState<A>,
) -> Result<FunState<A>, StepError>
    requires start { token.from ≤ token.to }
    requires end { token.to ≤ length bytes.now }
    requires clauses { IsCountOf bytes.now head.earlier }
    requires strings { AreCounted bytes.now state }
    ensures { StepsFun bytes.now result (step_of_head FUN_DEPTH true
        (fun_clauses_seen bytes.now head.earlier.clauses.items) head.at (first_seen bytes.now head.first)
        (expr_state_seen bytes.now state) (span_seen bytes.now token)) }
{
    if is_wrong_start(token.kind, &head.first, &state) {
        return Err(StepError::Misplaced);
    }
    if !is_part_end(token.kind, &head.first, &state) {
        let state = step(alloc, bytes, token, true, state)?;
        return Ok(FunState::InHead(head, state));
    }
    let last = expr_at_end(alloc, state)?;
    match last {
        Some(part) => after_part(alloc, token.kind, head, part),
        None => Err(StepError::Misplaced),
    }
}
