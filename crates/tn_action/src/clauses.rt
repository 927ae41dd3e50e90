// The first clause that fires.
ghost use Rattle.std.specs.Prelude.{◌≡◌, IfOk, map};
ghost use Rattle.def_spec.specs.Outcome as definition;
ghost use Rattle.tn_spec.specs.Views.{exprs_seen};
ghost use Rattle.tn_action.specs.EvalContexts.{each_true_in, body_effects_in, first_outcome};
ghost use Rattle.tn_action.specs.Steps.{spec_outcome, IsOutcomeIn, fired_or, effects_seen};
ghost use Rattle.tn_action.specs.Views.{effect_seen, outcome_seen};

use crate::context::Context;
use crate::effect::{Effect, Outcome};
use crate::eval_context::{EvalContext, Position};
use crate::values::{all_in_turn, value};
use bumpalo::Bump;
use std::alloc::{AllocError, Allocator};
use tn_head::bind;
use tn_spec::{Clause, Dialect, Expr, Spec};

/// What a specification gives in a context: the effects of the body of the least-numbered clause whose
/// head matches the list and whose conditions are all `true`, or no match ("Match Specifications in
/// Erlang", "Execution of the Match"). The values lie in the arena, or are lent. An error is refused memory.
pub fn outcome<'a, A: Allocator + Copy>(
    alloc: A,
    spec: &'a Spec<A>,
    context: &Context<'a, '_, A>,
    arena: &'a Bump<A>,
) -> Result<Outcome<'a, A>, AllocError>
    ensures answer { IfOk result (λ o. IsOutcomeIn spec.now context.now (outcome_seen o)) }
    ensures computed { IfOk result (λ o. outcome_seen o ≡ spec_outcome spec.now context.now) }
{
    Ok(first_fired(alloc, arena, spec, context)?)
}

/// The outcome, as its definition computes it.
fn first_fired<'a, A: Allocator + Copy>(
    alloc: A,
    arena: &'a Bump<A>,
    spec: &'a Spec<A>,
    context: &Context<'a, '_, A>,
) -> Result<Outcome<'a, A>, AllocError>
    ensures { IfOk result (λ o. outcome_seen o ≡ spec_outcome spec.now context.now) }
{
    for clause in &spec.clauses {
        if let Some(effects) = clause_effects(alloc, arena, spec.dialect, clause, context)? {
            return Ok(Outcome::Matched(effects));
        }
    }
    Ok(Outcome::NoMatch)
}

/// The effects of the clause's body, where the clause fires.
fn clause_effects<'a, A: Allocator + Copy>(
    alloc: A,
    arena: &'a Bump<A>,
    dialect: Dialect,
    clause: &'a Clause<A>,
    context: &Context<'a, '_, A>,
) -> Result<Option<Vec<Effect<'a, A>, A>>, AllocError>
    ensures { IfOk result (λ r. (next : definition.Outcome) →
        fired_or dialect clause.now context.now next ≡ first_outcome (effects_seen r) next) }
{
    let Some(bindings) = bind(arena, &clause.head, context.list)? else {
        return Ok(None);
    };
    let scene = EvalContext {
        alloc,
        arena,
        dialect,
        part: Position::Condition,
        bindings: &bindings,
        context,
    };
    if each_true(&clause.conditions, &scene)? {
        Ok(Some(body_effects(&clause.body, &scene)?))
    } else {
        Ok(None)
    }
}

/// Whether each condition is `true`: whether `andalso` of them is.
fn each_true<'a, A: Allocator + Copy>(
    conditions: &'a Vec<Expr<A>, A>,
    scene: &EvalContext<'a, '_, A>,
) -> Result<bool, AllocError>
    ensures { IfOk result (λ holds. holds ≡ each_true_in scene.now (exprs_seen conditions.now.items)) }
{
    let in_condition = EvalContext {
        part: Position::Condition,
        ..*scene
    };
    let mut effects = Vec::new(scene.alloc);
    match all_in_turn(conditions, &in_condition, &mut effects)? {
        Some(last) => Ok(last.is_true()),
        None => Ok(false),
    }
}

/// The effects of a body, up to a fault. An error is refused memory.
pub fn body_effects<'a, A: Allocator + Copy>(
    body: &'a Vec<Expr<A>, A>,
    scene: &EvalContext<'a, '_, A>,
) -> Result<Vec<Effect<'a, A>, A>, AllocError>
    ensures { IfOk result (λ v. map effect_seen v.items ≡ body_effects_in scene.now (exprs_seen body.now.items)) }
{
    let in_body = EvalContext {
        part: Position::Body,
        ..*scene
    };
    let mut effects = Vec::new(scene.alloc);
    for i in 0..body.len() {
        match value(&body[i], &in_body, &mut effects)? {
            Some(_) => {}
            None => return Ok(effects),
        }
    }
    Ok(effects)
}
