// Heads, and the variables that stand in them.
ghost use Rattle.std.specs.Prelude.{◌≡◌, ◌≤◌};
ghost use Rattle.tn_term.specs.Views.{tree_of};
ghost use Rattle.tn_spec.specs.Views.{head_seen};
ghost use Rattle.complete_specs.specs.Readings.{AreReadAlike};

use std::alloc::Allocator;
use tn_spec::{Head, SpecFault, Variables};
use tn_term::Term;

/// `tn_spec::head` has one answer.
pub fn head<A: Allocator + Copy>(
    alloc: A,
    one: &Term<A>,
    other: &Term<A>,
) -> (Result<Head<A>, SpecFault<A>>, Result<Head<A>, SpecFault<A>>)
    requires { tree_of one.now ≡ tree_of other.now }
    ensures { AreReadAlike head_seen result.0 result.1 }
{
    (tn_spec::head(alloc, one), tn_spec::head(alloc, other))
}

/// `tn_spec::Variables::of` has one answer, so far as the head is seen.
pub fn variables_of<'a, A: Allocator>(
    one: &'a Head<A>,
    other: &'a Head<A>,
) -> (Variables<'a, A>, Variables<'a, A>)
    requires { head_seen one.now ≡ head_seen other.now }
    ensures { head_seen result.0.head.now ≡ head_seen result.1.head.now }
{
    (Variables::of(one), Variables::of(other))
}

/// `tn_spec::Variables::has` has one answer.
pub fn has<'a, A: Allocator>(
    one: &Variables<'a, A>,
    other: &Variables<'a, A>,
    n: u16,
) -> (bool, bool)
    requires number { n ≤ 999 }
    requires same { head_seen one.now.head.now ≡ head_seen other.now.head.now }
    ensures { result.0 ≡ result.1 }
{
    (one.has(n), other.has(n))
}
