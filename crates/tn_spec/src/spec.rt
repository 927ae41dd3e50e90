// Specifications.
ghost use Rattle.std.specs.Prelude.{◌<◌, ◌^◌};
ghost use Rattle.def_spec.specs.Laws.{IsSound};
ghost use Rattle.tn_spec.specs.Sizes.{spec_size};
ghost use Rattle.tn_spec.specs.Views.{dialect_of, spec_from};

use crate::expr::Expr;
use crate::func::Dialect;
use crate::pattern::Head;
use std::alloc::Allocator;

/// A clause of a specification.
#[derive(Drop)]
pub struct Clause<A: Allocator> {
    pub head: Head<A>,
    pub conditions: Vec<Expr<A>, A>,
    pub body: Vec<Expr<A>, A>,
}

/// A specification, with what it is for. It has a clause or more; a clause's head binds each variable of
/// its conditions and its body; each call has a number of arguments that fits and stands where it is
/// allowed, so that no action stands in a condition; and there are fewer than 2^32 patterns and expressions
/// in it.
#[derive(Drop)]
pub struct Spec<A: Allocator> {
    pub dialect: Dialect,
    pub clauses: Vec<Clause<A>, A>,
    ghost sound: { ∥ IsSound (dialect_of dialect) (spec_from dialect clauses.items) ∥₁ },
    ghost bounded: { spec_size (spec_from dialect clauses.items) < 2 ^ 32 },
}
