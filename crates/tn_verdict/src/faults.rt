// Where an expression of a condition faults.
ghost use Rattle.std.specs.Prelude.{◌≡◌, IfOk};
ghost use Rattle.tn_spec.specs.Views.{exprs_seen};
ghost use Rattle.tn_verdict.specs.Reasons.{fault_of, fault_of_one, fault_in_turn, IsOfConditions};
ghost use Rattle.tn_verdict.specs.Views.{part_at};

use std::alloc::{AllocError, Allocator};
use tn_action::{Effect, EvalContext, value};
use tn_spec::Expr;

/// The part at which the expression faults; None where it has a value.
#[cycle(fault)]
pub fn fault_in<'a, A: Allocator + Copy>(
    expr: &'a Expr<A>,
    scene: &EvalContext<'a, '_, A>,
    effects: &mut Vec<Effect<'a, A>, A>,
) -> Result<Option<&'a Expr<A>>, AllocError>
    requires { IsOfConditions scene.now }
    ensures { IfOk result (λ r. part_at r ≡ fault_of scene.now expr.now) }
{
    let inner = match expr {
        Expr::Variable(_) => None,
        Expr::WholeList => return Ok(None),
        Expr::AllBound => return Ok(None),
        Expr::Constant(_) => return Ok(None),
        Expr::Tuple(exprs) => return Ok(fault_in_one(exprs, scene, effects)?),
        Expr::List(exprs) => return Ok(fault_in_one(exprs, scene, effects)?),
        Expr::Call(_, exprs) => fault_in_one(exprs, scene, effects)?,
        Expr::AndAlso(exprs) => return Ok(fault_in_turn(false, exprs, scene, effects)?),
        Expr::OrElse(exprs) => return Ok(fault_in_turn(true, exprs, scene, effects)?),
        Expr::Perform(_, exprs) => fault_in_one(exprs, scene, effects)?,
    };
    if inner.is_some() {
        return Ok(inner);
    }
    match value(expr, scene, effects)? {
        Some(_) => Ok(None),
        None => Ok(Some(expr)),
    }
}

/// In the first of several expressions that faults.
#[cycle(fault)]
fn fault_in_one<'a, A: Allocator + Copy>(
    exprs: &'a Vec<Expr<A>, A>,
    scene: &EvalContext<'a, '_, A>,
    effects: &mut Vec<Effect<'a, A>, A>,
) -> Result<Option<&'a Expr<A>>, AllocError>
    requires { IsOfConditions scene.now }
    ensures { IfOk result (λ r. part_at r ≡ fault_of_one scene.now exprs.now) }
{
    for i in 0..exprs.len() {
        if let Some(part) = fault_in(&exprs[i], scene, effects)? {
            return Ok(Some(part));
        }
    }
    Ok(None)
}

/// In turn, up to the first whose being `true` is this.
#[cycle(fault)]
fn fault_in_turn<'a, A: Allocator + Copy>(
    stop: bool,
    exprs: &'a Vec<Expr<A>, A>,
    scene: &EvalContext<'a, '_, A>,
    effects: &mut Vec<Effect<'a, A>, A>,
) -> Result<Option<&'a Expr<A>>, AllocError>
    requires { IsOfConditions scene.now }
    ensures { IfOk result (λ r. part_at r ≡ fault_in_turn scene.now stop (exprs_seen exprs.now.items)) }
{
    for i in 0..exprs.len() {
        if let Some(part) = fault_in(&exprs[i], scene, effects)? {
            return Ok(Some(part));
        }
        match value(&exprs[i], scene, effects)? {
            Some(part) => {
                if part.is_true() == stop {
                    return Ok(None);
                }
            }
            None => return Ok(None),
        }
    }
    Ok(None)
}
