// The state of a program's run.
ghost use Rattle.std.specs.Prelude.{◌≡◌, IfOk};

use std::alloc::{AllocError, Allocator};
use tn_moves::Plan;
use tn_program::Program;
use tn_state::{StateOutcome, StateQuestion};

/// `tn_state::state_of` has one outcome and one text.
pub fn state_of<A: Allocator + Copy>(
    alloc: A,
    program: &Program<A>,
    plan: &Plan<'_, A>,
    question: &StateQuestion<'_>,
) -> (
    Result<(StateOutcome, Vec<u8, A>), AllocError>,
    Result<(StateOutcome, Vec<u8, A>), AllocError>,
)
    ensures { IfOk result.0 (λ x. IfOk result.1 (λ y. (x.0 ≡ y.0) × (x.1.items ≡ y.1.items))) }
{
    (
        tn_state::state_of(alloc, program, plan, question),
        tn_state::state_of(alloc, program, plan, question),
    )
}
