// With which bindings a clause fires.
ghost use Rattle.std.specs.Prelude.{◌≡◌, IfOk, MatchOption};
ghost use Rattle.tn_spec.specs.Views.{exprs_seen};
ghost use Rattle.tn_running_node.specs.FiringClauses.{holds_in, all_hold_in, Fails, FiresWith};

use bumpalo::Bump;
use std::alloc::{AllocError, Allocator};
use tn_action::{Context, EvalContext, Position, value};
use tn_head::{Bindings, bind};
use tn_spec::{Clause, Dialect, Expr};

/// Whether a condition is `true`.
fn holds<'a, A: Allocator + Copy>(
    condition: &'a Expr<A>,
    scene: &EvalContext<'a, '_, A>,
) -> Result<bool, AllocError>
    ensures { IfOk result (λ b. b ≡ holds_in scene.now condition.now) }
{
    let in_condition = EvalContext {
        part: Position::Condition,
        ..*scene
    };
    let mut effects = Vec::new(scene.alloc);
    match value(condition, &in_condition, &mut effects)? {
        Some(value) => Ok(value.is_true()),
        None => Ok(false),
    }
}

/// Whether each of several is.
fn all_hold<'a, A: Allocator + Copy>(
    conditions: &'a Vec<Expr<A>, A>,
    scene: &EvalContext<'a, '_, A>,
) -> Result<bool, AllocError>
    ensures { IfOk result (λ b. b ≡ all_hold_in scene.now (exprs_seen conditions.now.items)) }
{
    for i in 0..conditions.len() {
        if !holds(&conditions[i], scene)? {
            return Ok(false);
        }
    }
    Ok(true)
}

/// The binding with which a clause fires in a context; None where it doesn't. Why it doesn't isn't looked for. An error
/// is refused memory.
pub fn firing_bindings<'a, A: Allocator + Copy>(
    alloc: A,
    arena: &'a Bump<A>,
    dialect: Dialect,
    clause: &'a Clause<A>,
    context: &Context<'a, '_, A>,
) -> Result<Option<&'a Bindings<'a, A, &'a Bump<A>>>, AllocError>
    ensures { IfOk result (λ r. MatchOption r
        (Fails dialect clause.now context.now) (λ b. FiresWith dialect clause.now context.now b.now)) }
{
    let Some(bindings) = bind(arena, &clause.head, context.list)? else {
        return Ok(None);
    };
    let bindings = &*arena.try_alloc(bindings)?;
    let scene = EvalContext {
        alloc,
        arena,
        dialect,
        part: Position::Condition,
        bindings,
        context,
    };
    if !all_hold(&clause.conditions, &scene)? {
        return Ok(None);
    }
    Ok(Some(bindings))
}
