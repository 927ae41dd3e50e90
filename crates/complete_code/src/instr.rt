// Instructions.
ghost use Rattle.std.specs.Prelude.{◌≡◌, IfOk};
ghost use Rattle.tn_code.specs.Views.{instruction_of};

use std::alloc::{AllocError, Allocator};
use tn_code::Instr;

/// `tn_code::Instr::copy` has one answer.
pub fn copy<A: Allocator, B: Allocator + Copy>(
    one: &Instr<A>,
    other: &Instr<A>,
    alloc: B,
) -> (Result<Instr<B>, AllocError>, Result<Instr<B>, AllocError>)
    requires { instruction_of one.now ≡ instruction_of other.now }
    ensures { IfOk result.0 (λ i. IfOk result.1 (λ j. instruction_of i ≡ instruction_of j)) }
{
    (one.copy(alloc), other.copy(alloc))
}
