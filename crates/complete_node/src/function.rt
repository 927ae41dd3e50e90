// What names a function.
ghost use Rattle.std.specs.Prelude.{◌≡◌, IfOk};
ghost use Rattle.tn_term.specs.Views.{mfa_seen};
ghost use Rattle.tn_script.specs.Views.{function_of};

use std::alloc::{AllocError, Allocator};
use tn_script::Function;
use tn_term::Mfa;

/// `tn_process::function_mfa` has one answer.
pub fn function_mfa<A: Allocator + Copy>(
    alloc: A,
    one: &Function<A>,
    other: &Function<A>,
) -> (Result<Mfa<A>, AllocError>, Result<Mfa<A>, AllocError>)
    requires { function_of one.now ≡ function_of other.now }
    ensures { IfOk result.0 (λ x. IfOk result.1 (λ y. mfa_seen x ≡ mfa_seen y)) }
{
    let first = tn_process::function_mfa(alloc, one);
    let second = tn_process::function_mfa(alloc, other);
    (first, second)
}
