// What a running node does otherwise at a clause that fires.
ghost use Rattle.std.specs.Prelude.{◌≡◌, IfOk};
ghost use Rattle.tn_action.specs.Views.{context_seen};
ghost use Rattle.tn_head.specs.Views.{bindings_seen};
ghost use Rattle.tn_spec.specs.Views.{clause_seen};

use bumpalo::Bump;
use std::alloc::{AllocError, Allocator};
use tn_action::Context;
use tn_head::Bindings;
use tn_running_node::ClauseDifferences;
use tn_spec::{Clause, Dialect};

/// A clause that fires with these bindings in a context.
#[derive_where(Clone, Copy)]
pub struct FiringClause<'a, 'b, A: Allocator + Copy> {
    pub clause: &'a Clause<A>,
    pub bindings: &'b Bindings<'a, A, &'a Bump<A>>,
    pub context: &'b Context<'a, 'b, A>,
}

/// `tn_running_node::clause_differences` has one answer.
pub fn clause_differences<'a, A: Allocator + Copy>(
    alloc: A,
    arena: &'a Bump<A>,
    dialect: Dialect,
    one: FiringClause<'a, '_, A>,
    other: FiringClause<'a, '_, A>,
) -> (
    Result<ClauseDifferences, AllocError>,
    Result<ClauseDifferences, AllocError>,
)
    requires clauses { clause_seen one.clause.now ≡ clause_seen other.clause.now }
    requires bindings { bindings_seen one.bindings.now ≡ bindings_seen other.bindings.now }
    requires contexts { context_seen one.context.now ≡ context_seen other.context.now }
    ensures { IfOk result.0 (λ x. IfOk result.1 (λ y. x ≡ y)) }
{
    let first = tn_running_node::clause_differences(
        alloc,
        arena,
        dialect,
        one.clause,
        one.bindings,
        one.context,
    );
    let second = tn_running_node::clause_differences(
        alloc,
        arena,
        dialect,
        other.clause,
        other.bindings,
        other.context,
    );
    (first, second)
}
