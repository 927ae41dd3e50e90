// Values and effects of expressions.
ghost use Rattle.std.specs.Prelude.{◌≡◌, IfOk};
ghost use Rattle.std.specs.Option.{option_map};
ghost use Rattle.tn_guard.specs.Views.{value_seen};
ghost use Rattle.tn_action.specs.Steps.{evaluation_seen, evaluations_seen, tuple_seen};
ghost use Rattle.tn_action.specs.Steps.{value_list_seen, perform_seen, AreAfter};
ghost use Rattle.tn_action.specs.Steps.{evaluation_of, evaluation_of_tuple, evaluation_of_list};
ghost use Rattle.tn_action.specs.Steps.{call_value, action_value};
ghost use Rattle.tn_action.specs.Steps.{list_values, evaluation_while_true, evaluation_until_true};
ghost use Rattle.tn_action.specs.Views.{effect_list};

use crate::actions::perform;
use crate::effect::Effect;
use crate::eval_context::{EvalContext, Position};
use bumpalo::Bump;
use smallvec::SmallVec;
use std::alloc::{AllocError, Allocator};
use tn_guard::{AtomConst, Value, apply};
use tn_spec::{Action, Expr, Func};

/// Values of the arguments of a call, or of elements: a few of them lie in the value itself, more in an
/// arena.
type SomeValues<'a, A> = SmallVec<Value<'a, A>, 4, &'a Bump<A>>;

/// The value of an expression after the effects so far, with its own put after them; None is a fault.
#[cycle(value)]
pub fn value<'a, A: Allocator + Copy>(
    expr: &'a Expr<A>,
    scene: &EvalContext<'a, '_, A>,
    effects: &mut Vec<Effect<'a, A>, A>,
) -> Result<Option<Value<'a, A>>, AllocError>
    ensures { IfOk result (λ v. evaluation_seen v effects.new ≡ evaluation_of scene.now expr.now effects.old) }
{
    match expr {
        Expr::Variable(number) => Ok(scene.bindings.get(*number)),
        Expr::WholeList => Ok(Some(scene.context.list.list())),
        Expr::AllBound => Ok(Some(scene.all_bound()?)),
        Expr::Constant(term) => Ok(Some(Value::Lent(term))),
        Expr::Tuple(exprs) => tuple_value(exprs, scene, effects),
        Expr::List(exprs) => list_value(exprs, scene, effects),
        Expr::Call(func, exprs) => call_value(*func, exprs, scene, effects),
        Expr::AndAlso(exprs) => all_in_turn(exprs, scene, effects),
        Expr::OrElse(exprs) => one_in_turn(exprs, scene, effects),
        Expr::Perform(action, exprs) => action_value(*action, exprs, scene, effects),
    }
}

/// The tuple of the values of the expressions.
#[cycle(value)]
fn tuple_value<'a, A: Allocator + Copy>(
    exprs: &'a Vec<Expr<A>, A>,
    scene: &EvalContext<'a, '_, A>,
    effects: &mut Vec<Effect<'a, A>, A>,
) -> Result<Option<Value<'a, A>>, AllocError>
    ensures { IfOk result (λ v. evaluation_seen v effects.new ≡ evaluation_of_tuple scene.now exprs.now effects.old) }
{
    let parts = values(exprs, scene, effects)?;
    tuple_of(parts, scene.arena)
}

/// The list of the values of the expressions.
#[cycle(value)]
fn list_value<'a, A: Allocator + Copy>(
    exprs: &'a Vec<Expr<A>, A>,
    scene: &EvalContext<'a, '_, A>,
    effects: &mut Vec<Effect<'a, A>, A>,
) -> Result<Option<Value<'a, A>>, AllocError>
    ensures { IfOk result (λ v. evaluation_seen v effects.new ≡ evaluation_of_list scene.now exprs.now effects.old) }
{
    let parts = values(exprs, scene, effects)?;
    list_of(parts, scene.arena)
}

/// The value of a function on the values of the expressions.
#[cycle(value)]
fn call_value<'a, A: Allocator + Copy>(
    func: Func,
    exprs: &'a Vec<Expr<A>, A>,
    scene: &EvalContext<'a, '_, A>,
    effects: &mut Vec<Effect<'a, A>, A>,
) -> Result<Option<Value<'a, A>>, AllocError>
    ensures { IfOk result (λ v. evaluation_seen v effects.new ≡ call_value scene.now func exprs.now effects.old) }
{
    let Some(args) = values(exprs, scene, effects)? else {
        return Ok(None);
    };
    Ok(scene.settle(apply(func, args.as_slice(), scene.context.self_pid)))
}

/// The value of an action on the values of the expressions; its effect goes after theirs.
#[cycle(value)]
fn action_value<'a, A: Allocator + Copy>(
    action: Action,
    exprs: &'a Vec<Expr<A>, A>,
    scene: &EvalContext<'a, '_, A>,
    effects: &mut Vec<Effect<'a, A>, A>,
) -> Result<Option<Value<'a, A>>, AllocError>
    ensures { IfOk result (λ v. evaluation_seen v effects.new ≡ action_value scene.now action exprs.now effects.old) }
{
    let Some(args) = values(exprs, scene, effects)? else {
        return Ok(None);
    };
    Ok(perform_at(action, args.as_slice(), scene, effects)?)
}

/// The values of several expressions, left to right; None at the first fault.
#[cycle(value)]
fn values<'a, A: Allocator + Copy>(
    exprs: &'a Vec<Expr<A>, A>,
    scene: &EvalContext<'a, '_, A>,
    effects: &mut Vec<Effect<'a, A>, A>,
) -> Result<Option<SomeValues<'a, A>>, AllocError>
    ensures { IfOk result (λ vs. evaluations_seen vs effects.new ≡ list_values scene.now exprs.now effects.old) }
{
    let mut parts = SmallVec::with_capacity(scene.arena, exprs.len())?;
    for i in 0..exprs.len() {
        match value(&exprs[i], scene, effects)? {
            Some(part) => parts.push(part)?,
            None => return Ok(None),
        }
    }
    Ok(Some(parts))
}

/// `andalso`: stops at the first that isn't `true`.
#[cycle(value)]
pub fn all_in_turn<'a, A: Allocator + Copy>(
    exprs: &'a Vec<Expr<A>, A>,
    scene: &EvalContext<'a, '_, A>,
    effects: &mut Vec<Effect<'a, A>, A>,
) -> Result<Option<Value<'a, A>>, AllocError>
    ensures { IfOk result (λ v. evaluation_seen v effects.new ≡ evaluation_while_true scene.now exprs.now effects.old) }
{
    for i in 0..exprs.len() {
        match value(&exprs[i], scene, effects)? {
            Some(part) => {
                if !part.is_true() {
                    return Ok(Some(Value::truth(false)));
                }
            }
            None => return Ok(None),
        }
    }
    Ok(Some(Value::truth(true)))
}

/// `orelse`: stops at the first that is `true`.
#[cycle(value)]
fn one_in_turn<'a, A: Allocator + Copy>(
    exprs: &'a Vec<Expr<A>, A>,
    scene: &EvalContext<'a, '_, A>,
    effects: &mut Vec<Effect<'a, A>, A>,
) -> Result<Option<Value<'a, A>>, AllocError>
    ensures { IfOk result (λ v. evaluation_seen v effects.new ≡ evaluation_until_true scene.now exprs.now effects.old) }
{
    for i in 0..exprs.len() {
        match value(&exprs[i], scene, effects)? {
            Some(part) => {
                if part.is_true() {
                    return Ok(Some(Value::truth(true)));
                }
            }
            None => return Ok(None),
        }
    }
    Ok(Some(Value::truth(false)))
}

/// The tuple of these values.
fn tuple_of<'a, A: Allocator + Copy>(
    parts: Option<SomeValues<'a, A>>,
    arena: &'a Bump<A>,
) -> Result<Option<Value<'a, A>>, AllocError>
    ensures { IfOk result (λ v. option_map value_seen v ≡ tuple_seen parts.entry) }
{
    match parts {
        Some(parts) => Ok(Some(Value::Tuple(arena.try_alloc_slice_copy(parts.as_slice())?))),
        None => Ok(None),
    }
}

/// The list of these values.
fn list_of<'a, A: Allocator + Copy>(
    parts: Option<SomeValues<'a, A>>,
    arena: &'a Bump<A>,
) -> Result<Option<Value<'a, A>>, AllocError>
    ensures { IfOk result (λ v. option_map value_seen v ≡ value_list_seen parts.entry) }
{
    match parts {
        Some(parts) => Ok(Some(Value::List(arena.try_alloc_slice_copy(parts.as_slice())?))),
        None => Ok(None),
    }
}

/// The value of an action on these values, with its effect put after the others; in a body a fault is
/// `'EXIT'`. No action stands in a condition, and there it is a fault.
fn perform_at<'a, A: Allocator + Copy>(
    action: Action,
    args: &[Value<'a, A>],
    scene: &EvalContext<'a, '_, A>,
    effects: &mut Vec<Effect<'a, A>, A>,
) -> Result<Option<Value<'a, A>>, AllocError>
    ensures { IfOk result (λ v. evaluation_seen v effects.new ≡ perform_seen scene.now action args.now effects.old) }
{
    let Position::Body = scene.part else {
        return Ok(None);
    };
    let Some(acted) = perform(action, args, scene, effects.as_slice())? else {
        return Ok(Some(Value::AtomConst(AtomConst::Exit)));
    };
    add(acted.effect, effects)?;
    Ok(Some(acted.value))
}

/// Puts an effect after the others, where there is one.
fn add<'a, A: Allocator>(
    effect: Option<Effect<'a, A>>,
    effects: &mut Vec<Effect<'a, A>, A>,
) -> Result<(), AllocError>
    ensures { IfOk result (λ _. AreAfter (effect_list effect.entry) effects.old effects.new) }
{
    match effect {
        Some(effect) => effects.push(effect)?,
        None => {}
    }
    Ok(())
}
