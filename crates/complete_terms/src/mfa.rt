// Names of functions.
ghost use Rattle.std.specs.Prelude.{◌≡◌, IfOk};
ghost use Rattle.tn_term.specs.Views.{mfa_seen};

use std::alloc::{AllocError, Allocator};
use tn_term::Mfa;

/// `tn_term::Mfa::copy_into` has one answer.
pub fn copy_into<A: Allocator, B: Allocator + Copy>(
    one: &Mfa<A>,
    other: &Mfa<A>,
    alloc: B,
) -> (Result<Mfa<B>, AllocError>, Result<Mfa<B>, AllocError>)
    requires { mfa_seen one.now ≡ mfa_seen other.now }
    ensures { IfOk result.0 (λ x. IfOk result.1 (λ y. mfa_seen x ≡ mfa_seen y)) }
{
    let first = one.copy_into(alloc);
    let second = other.copy_into(alloc);
    (first, second)
}

/// `tn_term::Mfa::same` has one answer.
pub fn same<A: Allocator, B: Allocator>(
    one: &Mfa<A>,
    other: &Mfa<A>,
    function: &Mfa<B>,
) -> (bool, bool)
    requires { mfa_seen one.now ≡ mfa_seen other.now }
    ensures { result.0 ≡ result.1 }
{
    (one.same(function), other.same(function))
}
