// What becomes of a clause.
ghost use Rattle.std.specs.Prelude.{◌≡◌, IfOk};
ghost use Rattle.tn_action.specs.Views.{context_seen};
ghost use Rattle.tn_verdict.specs.Views.{verdict_seen};
ghost use Rattle.tn_spec.specs.Views.{clause_seen};

use bumpalo::Bump;
use std::alloc::{AllocError, Allocator};
use tn_action::Context;
use tn_spec::{Clause, Dialect};
use tn_verdict::Verdict;

/// `tn_verdict::verdict` has one answer.
pub fn verdict<'a, A: Allocator + Copy>(
    alloc: A,
    arena: &'a Bump<A>,
    dialect: Dialect,
    one: &'a Clause<A>,
    other: &'a Clause<A>,
    context: &Context<'a, '_, A>,
) -> (
    Result<Verdict<'a, A>, AllocError>,
    Result<Verdict<'a, A>, AllocError>,
)
    requires { clause_seen one.now ≡ clause_seen other.now }
    ensures { IfOk result.0 (λ v. IfOk result.1 (λ w. verdict_seen v ≡ verdict_seen w)) }
{
    (
        tn_verdict::verdict(alloc, arena, dialect, one, context),
        tn_verdict::verdict(alloc, arena, dialect, other, context),
    )
}
