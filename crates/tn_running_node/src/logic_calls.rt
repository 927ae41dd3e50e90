// Whether expressions call logic.
ghost use Rattle.std.specs.Prelude.{◌≡◌};
ghost use Rattle.def_explain.specs.NodeCommands.{calls_logic, one_calls_logic};
ghost use Rattle.tn_spec.specs.Views.{expr_seen, exprs_seen};

use std::alloc::Allocator;
use tn_difference::is_logic;
use tn_spec::Expr;

/// Whether a part of an expression is a call of a function of logic, `andalso` or `orelse`.
#[cycle(logic)]
fn calls_logic<A: Allocator>(expr: &Expr<A>) -> bool
    ensures { result ≡ calls_logic (expr_seen expr.now) }
{
    match expr {
        Expr::Variable(_) => false,
        Expr::WholeList => false,
        Expr::AllBound => false,
        Expr::Constant(_) => false,
        Expr::Tuple(exprs) => one_calls_logic(exprs),
        Expr::List(exprs) => one_calls_logic(exprs),
        Expr::Call(func, exprs) => is_logic(*func) || one_calls_logic(exprs),
        Expr::AndAlso(_) => true,
        Expr::OrElse(_) => true,
        Expr::Perform(_, exprs) => one_calls_logic(exprs),
    }
}

/// Whether that is so of one of several expressions.
#[cycle(logic)]
pub fn one_calls_logic<A: Allocator>(exprs: &Vec<Expr<A>, A>) -> bool
    ensures { result ≡ one_calls_logic (exprs_seen exprs.now.items) }
{
    for i in 0..exprs.len() {
        if calls_logic(&exprs[i]) {
            return true;
        }
    }
    false
}
