// Values and effects of expressions.
ghost use Rattle.std.specs.Prelude.{◌≡◌, IfOk, OnOk, map};
ghost use Rattle.std.specs.Option.{option_map};
ghost use Rattle.tn_guard.specs.Views.{value_seen};
ghost use Rattle.tn_spec.specs.Views.{expr_seen};
ghost use Rattle.tn_action.specs.Views.{effect_seen};

use std::alloc::{AllocError, Allocator};
use tn_action::{Effect, EvalContext};
use tn_guard::Value;
use tn_spec::Expr;

/// `tn_action::value` has one answer.
pub fn value<'a, A: Allocator + Copy>(
    expr: &'a Expr<A>,
    again: &'a Expr<A>,
    scene: &EvalContext<'a, '_, A>,
    one: &mut Vec<Effect<'a, A>, A>,
    other: &mut Vec<Effect<'a, A>, A>,
) -> (
    Result<Option<Value<'a, A>>, AllocError>,
    Result<Option<Value<'a, A>>, AllocError>,
)
    requires exprs { expr_seen expr.now ≡ expr_seen again.now }
    requires effects { map effect_seen one.old.items ≡ map effect_seen other.old.items }
    ensures value { IfOk result.0 (λ v. IfOk result.1 (λ w. option_map value_seen v ≡ option_map value_seen w)) }
    ensures effects { OnOk result.0 (OnOk result.1 (map effect_seen one.new.items ≡ map effect_seen other.new.items)) }
{
    let first = tn_action::value(expr, scene, one);
    let second = tn_action::value(again, scene, other);
    (first, second)
}
