// The code of a specification.
ghost use Rattle.std.specs.Prelude.{◌≡◌, IfOk};
ghost use Rattle.tn_code.specs.Codes.{code_seen};
ghost use Rattle.tn_spec.specs.Wholes.{spec_seen};

use std::alloc::{AllocError, Allocator};
use tn_code::Code;
use tn_spec::Spec;

/// `tn_compile::compile` has one answer.
pub fn compile<P: Allocator, A: Allocator + Copy>(
    alloc: A,
    one: &Spec<P>,
    other: &Spec<P>,
) -> (Result<Code<A>, AllocError>, Result<Code<A>, AllocError>)
    requires { spec_seen one.now ≡ spec_seen other.now }
    ensures { IfOk result.0 (λ c. IfOk result.1 (λ d. code_seen c ≡ code_seen d)) }
{
    (
        tn_compile::compile(alloc, one),
        tn_compile::compile(alloc, other),
    )
}
