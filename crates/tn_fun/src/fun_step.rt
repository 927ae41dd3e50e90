// One token of a fun further.
ghost use Rattle.std.specs.Prelude.{◌≡◌, ◌≤◌, List, ℕ, length, true};
ghost use Rattle.def_fun.specs.Limits.{FUN_DEPTH};
ghost use Rattle.def_fun.specs.Reading.{begin_fun as fun_begins, begin_clause as clause_begins};
ghost use Rattle.def_fun.specs.Reading.{begin_guard as guard_begins, stop_fun as fun_stops};
ghost use Rattle.def_fun.specs.Reading.{fun_step as step_of_fun};
ghost use Rattle.tn_fun.specs.Tokens.{fun_token_seen, span_seen};
ghost use Rattle.tn_fun.specs.Clauses.{fun_clauses_seen};
ghost use Rattle.tn_fun.specs.FunStates.{clause_so_far_seen, fun_state_seen};
ghost use Rattle.tn_fun.specs.FunStates.{IsCountOf, IsCountedState, StepsFun};

use crate::body_step::body_step;
use crate::clause::Clause;
use crate::expr_end::expr_start;
use crate::fun_state::{ClauseSoFar, Earlier, FunState, HeadSoFar};
use crate::guard_step::guard_step;
use crate::head_step::head_step;
use crate::part::StepError;
use crate::token::{Kind, Token};
use std::alloc::Allocator;

/// `fun`.
fn begin_fun<A: Allocator>(alloc: A, kind: Kind) -> Result<FunState<A>, StepError>
    ensures { (text u more : List ℕ) → StepsFun text result (fun_begins (fun_token_seen kind u more)) }
{
    match kind {
        Kind::Fun => {
            let clauses = Vec::new(alloc);
            Ok(FunState::BeforeClause(Earlier { clauses, count: 0 }))
        }
        _ => Err(StepError::Misplaced),
    }
}

/// The `(` of a clause.
fn begin_clause<A: Allocator>(
    alloc: A,
    token: Token,
    earlier: Earlier<A>,
) -> Result<FunState<A>, StepError>
    ensures { (text u more : List ℕ) → IsCountOf text earlier → StepsFun text result
        (clause_begins (fun_clauses_seen text earlier.clauses.items) token.from (fun_token_seen token.kind u more)) }
{
    match token.kind {
        Kind::OpenParen => {
            let head = HeadSoFar {
                earlier,
                at: token.from,
                first: None,
            };
            Ok(FunState::InHead(head, expr_start(alloc)))
        }
        _ => Err(StepError::Misplaced),
    }
}

/// `when` or `->`, after a head.
fn begin_guard<A: Allocator + Copy>(
    alloc: A,
    kind: Kind,
    clause: ClauseSoFar<A>,
) -> Result<FunState<A>, StepError>
    ensures { (text u more : List ℕ) → IsCountOf text clause.earlier → StepsFun text result
        (guard_begins (clause_so_far_seen text clause) (fun_token_seen kind u more)) }
{
    match kind {
        Kind::When => Ok(FunState::InGuard(clause, Vec::new(alloc), expr_start(alloc))),
        Kind::Arrow => Ok(FunState::InBody(clause, Vec::new(alloc), expr_start(alloc))),
        _ => Err(StepError::Misplaced),
    }
}

/// A full stop, after `end`.
fn stop_fun<A: Allocator>(kind: Kind, clauses: Vec<Clause<A>, A>) -> Result<FunState<A>, StepError>
    ensures { (text u more : List ℕ) → StepsFun text result
        (fun_stops (fun_clauses_seen text clauses.items) (fun_token_seen kind u more)) }
{
    match kind {
        Kind::FullStop => Ok(FunState::AfterStop(clauses)),
        _ => Err(StepError::Misplaced),
    }
}

/// One token of a fun further.
pub fn fun_step<A: Allocator + Copy>(
    alloc: A,
    bytes: &[u8],
    token: Token,
    state: FunState<A>,
) -> Result<FunState<A>, StepError>
    requires start { token.from ≤ token.to }
    requires end { token.to ≤ length bytes.now }
    requires counted { IsCountedState bytes.now state }
    ensures { StepsFun bytes.now result
        (step_of_fun FUN_DEPTH true (fun_state_seen bytes.now state) (span_seen bytes.now token)) }
{
    match state {
        FunState::BeforeFun => begin_fun(alloc, token.kind),
        FunState::BeforeClause(earlier) => begin_clause(alloc, token, earlier),
        FunState::InHead(head, state) => head_step(alloc, bytes, token, head, state),
        FunState::AfterHead(clause) => begin_guard(alloc, token.kind, clause),
        FunState::InGuard(clause, conditions, state) => guard_step(
            alloc, bytes, token, clause, conditions, state,
        ),
        FunState::InBody(clause, body, state) => body_step(
            alloc, bytes, token, clause, body, state,
        ),
        FunState::AfterEnd(clauses) => stop_fun(token.kind, clauses),
        FunState::AfterStop(_) => Err(StepError::Misplaced),
    }
}
