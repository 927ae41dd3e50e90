// The account of a run.
ghost use Rattle.std.specs.Prelude.{◌≡◌, IfOk, OnOk, OnErr};

use std::alloc::{AllocError, Allocator};
use tn_explain::{ExplainOutcome, Filter, account_of, put_account};
use tn_message_choice::MessageFilter;
use tn_moves::Plan;
use tn_program::Program;

/// What is explained: a program's run by a plan, and what is asked of it.
#[derive(Clone, Copy)]
pub struct ExplainedProgram<'a, A: Allocator> {
    pub program: &'a Program<A>,
    pub plan: &'a Plan<'a, A>,
    pub filter: Filter<'a>,
    pub message: Option<MessageFilter<'a>>,
}

/// `tn_explain::account_of` has one outcome and one text.
pub fn outcome<A: Allocator + Copy>(
    alloc: A,
    of: ExplainedProgram<'_, A>,
) -> (
    Result<(ExplainOutcome, Vec<u8, A>), AllocError>,
    Result<(ExplainOutcome, Vec<u8, A>), AllocError>,
)
    ensures { IfOk result.0 (λ x. IfOk result.1 (λ y. (x.0 ≡ y.0) × (x.1.items ≡ y.1.items))) }
{
    (
        account_of(alloc, of.program, of.plan, &of.filter, of.message),
        account_of(alloc, of.program, of.plan, &of.filter, of.message),
    )
}

/// `tn_explain::put_account` leaves one text, and after a refusal the text that was there.
pub fn text<A: Allocator + Copy>(
    alloc: A,
    of: ExplainedProgram<'_, A>,
    first: &mut Vec<u8, A>,
    second: &mut Vec<u8, A>,
) -> (Result<(), AllocError>, Result<(), AllocError>)
    requires { first.old.items ≡ second.old.items }
    ensures ok { OnOk result.0 (OnOk result.1 (first.new.items ≡ second.new.items)) }
    ensures err { OnErr result.0 (OnErr result.1 (first.new.items ≡ second.new.items)) }
{
    (
        put_account(alloc, of.program, of.plan, &of.filter, first),
        put_account(alloc, of.program, of.plan, &of.filter, second),
    )
}
