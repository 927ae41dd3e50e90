// Reading a fun in one pass.
ghost use Rattle.std.specs.Prelude.{◌≡◌, ◌≤◌, ℕ, List, length, true, Result};
ghost use Rattle.def_text.specs.Faults.{FaultKind, misplaced as not_there};
ghost use Rattle.def_fun.specs.Limits.{FUN_DEPTH};
ghost use Rattle.def_fun.specs.Reading.{FunState as FunRead, fun_end, fun_step as step_of_fun};
ghost use Rattle.tn_fun.specs.Tokens.{span_seen};
ghost use Rattle.tn_fun.specs.States.{IsStepErrorOf};
ghost use Rattle.tn_fun.specs.FunStates.{fun_state_seen, IsCountedState};
ghost use Rattle.tn_fun.specs.Answers.{RefusesAs, IsFaultAt, TakesFunToken, FinishesFun, IsFunRead};

use crate::clause::Clause;
use crate::fault::ReadFault;
use crate::fun_state::FunState;
use crate::fun_step::fun_step;
use crate::lexer::next_at;
use crate::part::StepError;
use crate::token::{Kind, Token};
use std::alloc::Allocator;
use tn_text::MAX_TEXT;

/// The refusal of a token with which the text begins no fun.
fn fault_of_token(token: Token) -> ReadFault
    ensures { (text : List ℕ) → RefusesAs text result token not_there }
{
    match token.kind {
        Kind::LeftOut | Kind::Float | Kind::OtherNumber => ReadFault::NoSuch(token),
        Kind::Fun | Kind::Match => ReadFault::NoSuch(token),
        _ => ReadFault::Token { at: token.from },
    }
}

/// The refusal of a token, with which a step ended so.
fn fault_at(error: StepError, token: Token) -> ReadFault
    ensures { (text : List ℕ) (r : Result FunRead FaultKind) → IsStepErrorOf error r
        → IsFaultAt text result token r }
{
    match error {
        StepError::OutOfMemory => ReadFault::OutOfMemory,
        StepError::Misplaced => fault_of_token(token),
        StepError::TooDeep => ReadFault::TooDeep { at: token.from },
        StepError::TooLarge => ReadFault::TooLarge { at: token.from },
    }
}

/// One token of a text further.
fn step_at<A: Allocator + Copy>(
    alloc: A,
    bytes: &[u8],
    token: Token,
    state: FunState<A>,
) -> Result<FunState<A>, ReadFault>
    requires start { token.from ≤ token.to }
    requires end { token.to ≤ length bytes.now }
    requires counted { IsCountedState bytes.now state }
    ensures { TakesFunToken bytes.now result token
        (step_of_fun FUN_DEPTH true (fun_state_seen bytes.now state) (span_seen bytes.now token)) }
{
    match fun_step(alloc, bytes, token, state) {
        Ok(further) => Ok(further),
        Err(error) => Err(fault_at(error, token)),
    }
}

/// The clauses, where the tokens end with the fun.
fn finish<A: Allocator>(state: FunState<A>, end: usize) -> Result<Vec<Clause<A>, A>, ReadFault>
    ensures { (text : List ℕ) → FinishesFun text result end (fun_end (fun_state_seen text state)) }
{
    match state {
        FunState::AfterEnd(clauses) => Ok(clauses),
        FunState::AfterStop(clauses) => Ok(clauses),
        FunState::BeforeFun => Err(ReadFault::Token { at: end }),
        FunState::BeforeClause(_) => Err(ReadFault::Token { at: end }),
        FunState::InHead(_, _) => Err(ReadFault::Token { at: end }),
        FunState::AfterHead(_) => Err(ReadFault::Token { at: end }),
        FunState::InGuard(_, _, _) => Err(ReadFault::Token { at: end }),
        FunState::InBody(_, _, _) => Err(ReadFault::Token { at: end }),
    }
}

/// The clauses of the one fun that the text is, with or without a full stop after it. Beside the clauses
/// it allocates the stack of at most 64 brackets, calls and operators that wait for their ends. Of a
/// text that is no fun within the limits it answers refusal 1 to 4 or 21, with the offset of the refused
/// token or the text's length; memory that runs out is `OutOfMemory` and says nothing of the text.
pub fn read_fun<A: Allocator + Copy>(alloc: A, bytes: &[u8]) -> Result<Vec<Clause<A>, A>, ReadFault>
    ensures { IsFunRead bytes.now result }
{
    if bytes.len() > MAX_TEXT {
        return Err(ReadFault::TooLong);
    }
    let mut state = FunState::BeforeFun;
    let mut at = 0;
    while let Some(token) = next_at(bytes, at) {
        state = step_at(alloc, bytes, token, state)?;
        at = token.to;
    }
    finish(state, bytes.len())
}
