// What is written of a run, where the session, the move and the message that are asked for are there.
ghost use Rattle.std.specs.Prelude.{IfOk};
ghost use Rattle.tn_program.specs.Views.{program_of};
ghost use Rattle.tn_moves.specs.Plans.{plan_picks};
ghost use Rattle.tn_explain.specs.Filters.{account_question_seen};
ghost use Rattle.tn_explain.specs.Accounts.{IsAnswer};

use crate::account::put_asked;
use crate::creations::has_session;
use crate::filter::Filter;
use crate::request::ExplainOutcome;
use std::alloc::{AllocError, Allocator};
use tn_message_choice::MessageFilter;
use tn_moves::Plan;
use tn_program::Program;

/// The account of the program's run by a plan, where the session, the move and the message that are asked for are
/// there; else no text, and which of them isn't there.
///
/// # Errors
///
/// AllocError where memory was refused.
pub fn account_of<'a, A: Allocator + Copy>(
    alloc: A,
    program: &Program<A>,
    plan: &Plan<'_, A>,
    filter: &Filter<'a>,
    message: Option<MessageFilter<'a>>,
) -> Result<(ExplainOutcome, Vec<u8, A>), AllocError>
    ensures { let p = program_of program.now in
        let q = account_question_seen filter.now message.entry in
        IfOk result (λ r. IsAnswer p (plan_picks p plan.now) q r.0 r.1.items) }
{
    let mut out = Vec::new(alloc);
    if let Some(name) = filter.session {
        if !has_session(program, name) {
            return Ok((ExplainOutcome::NoSession, out));
        }
    }
    put_asked(alloc, program, plan, filter, message, &mut out)?;
    if message.is_some() && out.is_empty() {
        return Ok((ExplainOutcome::NoMessage, out));
    }
    if filter.node && out.is_empty() {
        return Ok((ExplainOutcome::NoDifference, out));
    }
    if filter.move_number.is_some() && out.is_empty() {
        return Ok((ExplainOutcome::NoMove, out));
    }
    Ok((ExplainOutcome::Account, out))
}
