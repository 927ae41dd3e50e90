// What a running node does otherwise at a clause that fires, whatever its effects are.
ghost use Rattle.std.specs.Prelude.{◌≡◌, IfOk};
ghost use Rattle.tn_difference.specs.Logic.{logic_of_clause};
ghost use Rattle.tn_running_node.specs.ClauseDifferences.{AreOfClause};

use crate::logic_calls::one_calls_logic;
use bumpalo::Bump;
use std::alloc::{AllocError, Allocator};
use tn_action::Context;
use tn_difference::{list_differs, logic_differs, order_differs};
use tn_head::Bindings;
use tn_spec::{Clause, Dialect};

/// Whether a running node does otherwise at a clause by the order of evaluation, by logic on what is no boolean, and by
/// the list of no elements.
#[derive(Clone, Copy)]
pub struct ClauseDifferences {
    pub order: bool,
    pub logic: bool,
    pub list: bool,
}

/// Whether a clause that fires with these bindings calls logic on what is no boolean. It is evaluated again only
/// where it calls logic. An error is refused memory.
fn logic_where_called<'a, A: Allocator + Copy>(
    alloc: A,
    arena: &'a Bump<A>,
    dialect: Dialect,
    clause: &'a Clause<A>,
    bindings: &Bindings<'a, A, &'a Bump<A>>,
    context: &Context<'a, '_, A>,
) -> Result<bool, AllocError>
    ensures { IfOk result (λ r. r ≡ logic_of_clause dialect clause.now bindings.now context.now) }
{
    let calls = one_calls_logic(&clause.conditions) | one_calls_logic(&clause.body);
    if !calls {
        return Ok(false);
    }
    logic_differs(alloc, arena, dialect, clause, bindings, context)
}

/// Those of a clause that fires with these bindings. An error is refused memory.
pub fn clause_differences<'a, A: Allocator + Copy>(
    alloc: A,
    arena: &'a Bump<A>,
    dialect: Dialect,
    clause: &'a Clause<A>,
    bindings: &Bindings<'a, A, &'a Bump<A>>,
    context: &Context<'a, '_, A>,
) -> Result<ClauseDifferences, AllocError>
    ensures { IfOk result (AreOfClause dialect clause.now bindings.now context.now) }
{
    let logic = logic_where_called(alloc, arena, dialect, clause, bindings, context)?;
    let order = order_differs(clause);
    let list = list_differs(dialect, clause);
    Ok(ClauseDifferences { order, logic, list })
}
