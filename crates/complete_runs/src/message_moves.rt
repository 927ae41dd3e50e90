// The moves of the messages of a run.
ghost use Rattle.std.specs.Prelude.{◌≡◌, IfOk, map};
ghost use Rattle.tn_program.specs.Views.{program_of};

use std::alloc::{AllocError, Allocator};
use tn_program::Program;

/// `tn_message_moves::message_moves` has one answer.
pub fn message_moves<A: Allocator + Copy>(
    alloc: A,
    one: &Program<A>,
    other: &Program<A>,
    picks: &[u32],
) -> (
    Result<Vec<Vec<u32, A>, A>, AllocError>,
    Result<Vec<Vec<u32, A>, A>, AllocError>,
)
    requires { program_of one.now ≡ program_of other.now }
    ensures { IfOk result.0 (λ x. IfOk result.1 (λ y. map (λ v. v.items) x.items ≡ map (λ v. v.items) y.items)) }
{
    let first = tn_message_moves::message_moves(alloc, one, picks);
    let second = tn_message_moves::message_moves(alloc, other, picks);
    (first, second)
}
