// Whether the order of evaluation shows.
ghost use Rattle.std.specs.Prelude.{◌≡◌};
ghost use Rattle.def_explain.specs.Differences.{calls_action, one_calls_action, two_call_actions};
ghost use Rattle.def_explain.specs.Differences.{shows_order, one_shows_order};
ghost use Rattle.tn_spec.specs.Views.{clause_seen, expr_seen, exprs_seen};

use std::alloc::Allocator;
use tn_spec::{Clause, Expr};

/// Whether the expression calls an action.
#[cycle(action)]
fn calls_action<A: Allocator>(expr: &Expr<A>) -> bool
    ensures { result ≡ calls_action (expr_seen expr.now) }
{
    match expr {
        Expr::Variable(_) => false,
        Expr::WholeList => false,
        Expr::AllBound => false,
        Expr::Constant(_) => false,
        Expr::Tuple(exprs) => one_calls_action(exprs),
        Expr::List(exprs) => one_calls_action(exprs),
        Expr::Call(_, exprs) => one_calls_action(exprs),
        Expr::AndAlso(exprs) => one_calls_action(exprs),
        Expr::OrElse(exprs) => one_calls_action(exprs),
        Expr::Perform(_, _) => true,
    }
}

/// Whether one of several expressions does.
#[cycle(action)]
fn one_calls_action<A: Allocator>(exprs: &Vec<Expr<A>, A>) -> bool
    ensures { result ≡ one_calls_action (exprs_seen exprs.now.items) }
{
    for i in 0..exprs.len() {
        if calls_action(&exprs[i]) {
            return true;
        }
    }
    false
}

/// Whether two of several expressions do.
fn two_call_actions<A: Allocator>(exprs: &Vec<Expr<A>, A>) -> bool
    ensures { result ≡ two_call_actions (exprs_seen exprs.now.items) }
{
    let mut one_has = false;
    for i in 0..exprs.len() {
        if calls_action(&exprs[i]) {
            if one_has {
                return true;
            }
            one_has = true;
        }
    }
    false
}

/// Whether the expression is a call or a tuple of which two parts have actions, or has a part that is one.
#[cycle(order)]
fn shows_order<A: Allocator>(expr: &Expr<A>) -> bool
    ensures { result ≡ shows_order (expr_seen expr.now) }
{
    match expr {
        Expr::Variable(_) => false,
        Expr::WholeList => false,
        Expr::AllBound => false,
        Expr::Constant(_) => false,
        Expr::Tuple(exprs) => two_call_actions(exprs) || one_shows_order(exprs),
        Expr::List(exprs) => one_shows_order(exprs),
        Expr::Call(_, exprs) => two_call_actions(exprs) || one_shows_order(exprs),
        Expr::AndAlso(exprs) => one_shows_order(exprs),
        Expr::OrElse(exprs) => one_shows_order(exprs),
        Expr::Perform(_, exprs) => two_call_actions(exprs) || one_shows_order(exprs),
    }
}

/// Whether one of several expressions does.
#[cycle(order)]
fn one_shows_order<A: Allocator>(exprs: &Vec<Expr<A>, A>) -> bool
    ensures { result ≡ one_shows_order (exprs_seen exprs.now.items) }
{
    for i in 0..exprs.len() {
        if shows_order(&exprs[i]) {
            return true;
        }
    }
    false
}

/// Whether a node does otherwise at a clause that fires, since it evaluates the body from the right.
pub fn order_differs<A: Allocator>(clause: &Clause<A>) -> bool
    ensures { result ≡ one_shows_order (clause_seen clause.now).body }
{
    one_shows_order(&clause.body)
}
