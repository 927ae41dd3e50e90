// Specifications, read from terms.
ghost use Rattle.std.specs.Prelude.{◌≡◌};
ghost use Rattle.tn_term.specs.Views.{tree_of};
ghost use Rattle.tn_spec.specs.Views.{clause_seen};
ghost use Rattle.tn_spec.specs.Wholes.{spec_seen};
ghost use Rattle.complete_specs.specs.Readings.{AreReadAlike};

use std::alloc::Allocator;
use tn_spec::{Clause, Dialect, Spec, SpecFault};
use tn_term::Term;

/// `tn_spec::clause` has one answer.
pub fn clause<A: Allocator + Copy>(
    alloc: A,
    one: &Term<A>,
    other: &Term<A>,
    dialect: Dialect,
) -> (
    Result<Clause<A>, SpecFault<A>>,
    Result<Clause<A>, SpecFault<A>>,
)
    requires { tree_of one.now ≡ tree_of other.now }
    ensures { AreReadAlike clause_seen result.0 result.1 }
{
    (
        tn_spec::clause(alloc, one, dialect),
        tn_spec::clause(alloc, other, dialect),
    )
}

/// `tn_spec::spec_of` has one answer.
pub fn spec_of<A: Allocator + Copy>(
    alloc: A,
    one: &Term<A>,
    other: &Term<A>,
    dialect: Dialect,
) -> (Result<Spec<A>, SpecFault<A>>, Result<Spec<A>, SpecFault<A>>)
    requires { tree_of one.now ≡ tree_of other.now }
    ensures { AreReadAlike spec_seen result.0 result.1 }
{
    (
        tn_spec::spec_of(alloc, one, dialect),
        tn_spec::spec_of(alloc, other, dialect),
    )
}
