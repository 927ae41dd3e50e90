// What a specification gives.
ghost use Rattle.std.specs.Prelude.{◌≡◌, IfOk, map};
ghost use Rattle.tn_spec.specs.Views.{exprs_seen};
ghost use Rattle.tn_spec.specs.Wholes.{spec_seen};
ghost use Rattle.tn_action.specs.Views.{context_seen, effect_seen, outcome_seen};

use bumpalo::Bump;
use std::alloc::{AllocError, Allocator};
use tn_action::{Context, Effect, EvalContext, Outcome};
use tn_spec::{Expr, Spec};

/// `tn_action::outcome` has one answer.
pub fn outcome<'a, A: Allocator + Copy>(
    alloc: A,
    spec: &'a Spec<A>,
    again: &'a Spec<A>,
    one: &Context<'a, '_, A>,
    other: &Context<'a, '_, A>,
    arena: &'a Bump<A>,
) -> (
    Result<Outcome<'a, A>, AllocError>,
    Result<Outcome<'a, A>, AllocError>,
)
    requires specs { spec_seen spec.now ≡ spec_seen again.now }
    requires contexts { context_seen one.now ≡ context_seen other.now }
    ensures { IfOk result.0 (λ o. IfOk result.1 (λ p. outcome_seen o ≡ outcome_seen p)) }
{
    (
        tn_action::outcome(alloc, spec, one, arena),
        tn_action::outcome(alloc, again, other, arena),
    )
}

/// `tn_action::body_effects` has one answer.
pub fn body_effects<'a, A: Allocator + Copy>(
    body: &'a Vec<Expr<A>, A>,
    again: &'a Vec<Expr<A>, A>,
    scene: &EvalContext<'a, '_, A>,
) -> (
    Result<Vec<Effect<'a, A>, A>, AllocError>,
    Result<Vec<Effect<'a, A>, A>, AllocError>,
)
    requires { exprs_seen body.now.items ≡ exprs_seen again.now.items }
    ensures { IfOk result.0 (λ v. IfOk result.1 (λ w. map effect_seen v.items ≡ map effect_seen w.items)) }
{
    (
        tn_action::body_effects(body, scene),
        tn_action::body_effects(again, scene),
    )
}
