// Which moves of a run a running node does otherwise.
ghost use Rattle.std.specs.Prelude.{◌≡◌, IfOk};
ghost use Rattle.tn_program.specs.Views.{program_of};

use std::alloc::{AllocError, Allocator};
use tn_program::Program;

/// `tn_running_node::moves_that_differ` has one answer for one program and the same picks.
pub fn moves_that_differ<A: Allocator + Copy>(
    alloc: A,
    first: &Program<A>,
    second: &Program<A>,
    picks: &[u32],
) -> (
    Result<Vec<bool, A>, AllocError>,
    Result<Vec<bool, A>, AllocError>,
)
    requires { program_of first.now ≡ program_of second.now }
    ensures { IfOk result.0 (λ v. IfOk result.1 (λ w. v.items ≡ w.items)) }
{
    (
        tn_running_node::moves_that_differ(alloc, first, picks),
        tn_running_node::moves_that_differ(alloc, second, picks),
    )
}
