// Whether logic is called on what is no boolean.
ghost use Rattle.std.specs.Prelude.{◌≡◌, ◌||◌, not, IfOk};
ghost use Rattle.def_spec.specs.Functions.{boolean_test};
ghost use Rattle.def_explain.specs.Logic.{is_logic};
ghost use Rattle.tn_guard.specs.Views.{value_seen};
ghost use Rattle.tn_spec.specs.Views.{func_of};
ghost use Rattle.tn_difference.specs.Logic.{HasMoreEffects, HasSameEffects, has_other_value, logic_of_call};
ghost use Rattle.tn_difference.specs.Logic.{logic_of, logic_of_one, logic_of_turn, logic_of_clause};

use bumpalo::Bump;
use std::alloc::{AllocError, Allocator};
use tn_action::{Context, Effect, EvalContext, Position, value};
use tn_guard::Value;
use tn_head::Bindings;
use tn_spec::{Clause, Dialect, Expr, Func};

/// Whether the function is one of logic: `and`, `or`, `xor` or `not`.
pub fn is_logic(func: Func) -> bool
    ensures { result ≡ is_logic (func_of func) }
{
    match func {
        Func::AllOf | Func::OneOf | Func::JustOneOf | Func::IsFalse => true,
        _ => false,
    }
}

/// Whether the value is `true` or `false`.
fn is_boolean<A: Allocator>(value: Value<'_, A>) -> bool
    ensures { result ≡ boolean_test (value_seen value.entry) }
{
    let no: Value<'_, A> = Value::truth(false);
    value.is_true() || value.same(no)
}

/// Whether there was a value before that is no boolean, or this one is none.
fn is_other(found: bool, is_boolean: bool) -> bool
    ensures { result ≡ (found || not is_boolean) }
{
    found || !is_boolean
}

/// Whether the expressions have values, one of which is no boolean. The effects are those after their evaluation.
fn has_other_value<'a, A: Allocator + Copy>(
    exprs: &'a Vec<Expr<A>, A>,
    scene: &EvalContext<'a, '_, A>,
    effects: &mut Vec<Effect<'a, A>, A>,
) -> Result<bool, AllocError>
    ensures answer { IfOk result (λ r. r ≡ has_other_value scene.now exprs.now effects.old) }
    ensures effects { IfOk result (λ _. HasMoreEffects effects.old effects.new) }
{
    let mut found = false;
    for i in 0..exprs.len() {
        match value(&exprs[i], scene, effects)? {
            Some(part) => found = is_other(found, is_boolean(part)),
            None => return Ok(false),
        }
    }
    Ok(found)
}

/// Whether the call of a function on these expressions is one of logic on what is no boolean. The effects are as they
/// were.
fn is_logic_on_other<'a, A: Allocator + Copy>(
    func: Func,
    exprs: &'a Vec<Expr<A>, A>,
    scene: &EvalContext<'a, '_, A>,
    effects: &mut Vec<Effect<'a, A>, A>,
) -> Result<bool, AllocError>
    ensures answer { IfOk result (λ r. r ≡ logic_of_call scene.now func exprs.now effects.old) }
    ensures effects { IfOk result (λ _. HasSameEffects effects.old effects.new) }
{
    if !is_logic(func) {
        return Ok(false);
    }
    let before = effects.len();
    let found = has_other_value(exprs, scene, effects)?;
    effects.truncate(before);
    Ok(found)
}

/// Whether the expression calls logic on what is no boolean, after these effects. They may have others after them.
#[cycle(logic)]
fn logic_of<'a, A: Allocator + Copy>(
    expr: &'a Expr<A>,
    scene: &EvalContext<'a, '_, A>,
    effects: &mut Vec<Effect<'a, A>, A>,
) -> Result<bool, AllocError>
    ensures answer { IfOk result (λ r. r ≡ logic_of scene.now expr.now effects.old) }
    ensures effects { IfOk result (λ _. HasMoreEffects effects.old effects.new) }
{
    match expr {
        Expr::Variable(_) => Ok(false),
        Expr::WholeList => Ok(false),
        Expr::AllBound => Ok(false),
        Expr::Constant(_) => Ok(false),
        Expr::Tuple(exprs) => Ok(logic_of_one(exprs, scene, effects)?),
        Expr::List(exprs) => Ok(logic_of_one(exprs, scene, effects)?),
        Expr::Call(func, exprs) => {
            if is_logic_on_other(*func, exprs, scene, effects)? {
                return Ok(true);
            }
            Ok(logic_of_one(exprs, scene, effects)?)
        }
        Expr::AndAlso(exprs) => Ok(logic_of_turn(true, exprs, scene, effects)?),
        Expr::OrElse(exprs) => Ok(logic_of_turn(false, exprs, scene, effects)?),
        Expr::Perform(_, exprs) => Ok(logic_of_one(exprs, scene, effects)?),
    }
}

/// The same. The effects are as they were.
#[cycle(logic)]
fn has_logic<'a, A: Allocator + Copy>(
    expr: &'a Expr<A>,
    scene: &EvalContext<'a, '_, A>,
    effects: &mut Vec<Effect<'a, A>, A>,
) -> Result<bool, AllocError>
    ensures answer { IfOk result (λ r. r ≡ logic_of scene.now expr.now effects.old) }
    ensures effects { IfOk result (λ _. HasSameEffects effects.old effects.new) }
{
    let before = effects.len();
    let found = logic_of(expr, scene, effects)?;
    effects.truncate(before);
    Ok(found)
}

/// Whether one of several expressions does, each after the effects of those before it.
#[cycle(logic)]
fn logic_of_one<'a, A: Allocator + Copy>(
    exprs: &'a Vec<Expr<A>, A>,
    scene: &EvalContext<'a, '_, A>,
    effects: &mut Vec<Effect<'a, A>, A>,
) -> Result<bool, AllocError>
    ensures answer { IfOk result (λ r. r ≡ logic_of_one scene.now exprs.now effects.old) }
    ensures effects { IfOk result (λ _. HasMoreEffects effects.old effects.new) }
{
    for i in 0..exprs.len() {
        let expr = &exprs[i];
        if has_logic(expr, scene, effects)? {
            return Ok(true);
        }
        match value(expr, scene, effects)? {
            Some(_) => {}
            None => return Ok(false),
        }
    }
    Ok(false)
}

/// Whether one does or is no boolean itself, in turn, as long as those before it are true, or aren't.
#[cycle(logic)]
fn logic_of_turn<'a, A: Allocator + Copy>(
    goes_on: bool,
    exprs: &'a Vec<Expr<A>, A>,
    scene: &EvalContext<'a, '_, A>,
    effects: &mut Vec<Effect<'a, A>, A>,
) -> Result<bool, AllocError>
    ensures answer { IfOk result (λ r. r ≡ logic_of_turn scene.now goes_on exprs.now effects.old) }
    ensures effects { IfOk result (λ _. HasMoreEffects effects.old effects.new) }
{
    for i in 0..exprs.len() {
        let expr = &exprs[i];
        if has_logic(expr, scene, effects)? {
            return Ok(true);
        }
        match value(expr, scene, effects)? {
            Some(part) => {
                if !is_boolean(part) {
                    return Ok(true);
                }
                if part.is_true() != goes_on {
                    return Ok(false);
                }
            }
            None => return Ok(false),
        }
    }
    Ok(false)
}

/// Whether a clause that fires with these bindings calls logic on what is no boolean, in its conditions or its body. A
/// running node has a fault there, or gives the last argument of `andalso` or `orelse`. An error is refused memory.
pub fn logic_differs<'a, A: Allocator + Copy>(
    alloc: A,
    arena: &'a Bump<A>,
    dialect: Dialect,
    clause: &'a Clause<A>,
    bindings: &Bindings<'a, A, &'a Bump<A>>,
    context: &Context<'a, '_, A>,
) -> Result<bool, AllocError>
    ensures { IfOk result (λ r. r ≡ logic_of_clause dialect clause.now bindings.now context.now) }
{
    let scene = EvalContext {
        alloc,
        arena,
        dialect,
        part: Position::Condition,
        bindings,
        context,
    };
    let mut effects = Vec::new(alloc);
    if logic_of_one(&clause.conditions, &scene, &mut effects)? {
        return Ok(true);
    }
    let in_body = EvalContext {
        part: Position::Body,
        ..scene
    };
    let mut effects = Vec::new(alloc);
    Ok(logic_of_one(&clause.body, &in_body, &mut effects)?)
}
