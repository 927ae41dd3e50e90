// The message of a number, and how many there are.
ghost use Rattle.std.specs.Prelude.{◌≡◌, IfOk};

use std::alloc::{AllocError, Allocator};
use tn_moves::Plan;
use tn_program::Program;

/// `tn_message_choice::move_of_message` has one answer.
pub fn move_of_message<A: Allocator + Copy>(
    alloc: A,
    program: &Program<A>,
    plan: &Plan<'_, A>,
    session: &str,
    number: u64,
) -> (
    Result<Option<u64>, AllocError>,
    Result<Option<u64>, AllocError>,
)
    ensures { IfOk result.0 (λ m. IfOk result.1 (λ n. m ≡ n)) }
{
    (
        tn_message_choice::move_of_message(alloc, program, plan, session, number),
        tn_message_choice::move_of_message(alloc, program, plan, session, number),
    )
}

/// `tn_message_choice::message_count` has one answer.
pub fn message_count<A: Allocator + Copy>(
    alloc: A,
    program: &Program<A>,
    plan: &Plan<'_, A>,
    session: &str,
) -> (
    Result<Option<u64>, AllocError>,
    Result<Option<u64>, AllocError>,
)
    ensures { IfOk result.0 (λ m. IfOk result.1 (λ n. m ≡ n)) }
{
    (
        tn_message_choice::message_count(alloc, program, plan, session),
        tn_message_choice::message_count(alloc, program, plan, session),
    )
}
