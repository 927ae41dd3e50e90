// Which variables stand in an expression.
ghost use Rattle.std.specs.Prelude.{◌≡◌};
ghost use Rattle.def_explain.specs.Reasons.{stands_in, stands_in_one};
ghost use Rattle.tn_spec.specs.Views.{expr_seen, exprs_seen};

use std::alloc::Allocator;
use tn_spec::Expr;

/// Whether the variable of this number stands in an expression. `'$$'` has all variables.
#[cycle(variables)]
pub fn stands_in<A: Allocator>(number: u16, expr: &Expr<A>) -> bool
    ensures { result ≡ stands_in number (expr_seen expr.now) }
{
    match expr {
        Expr::Variable(other) => number == *other,
        Expr::WholeList => false,
        Expr::AllBound => true,
        Expr::Constant(_) => false,
        Expr::Tuple(exprs) => stands_in_one(number, exprs),
        Expr::List(exprs) => stands_in_one(number, exprs),
        Expr::Call(_, exprs) => stands_in_one(number, exprs),
        Expr::AndAlso(exprs) => stands_in_one(number, exprs),
        Expr::OrElse(exprs) => stands_in_one(number, exprs),
        Expr::Perform(_, exprs) => stands_in_one(number, exprs),
    }
}

/// Whether it stands in one of several expressions.
#[cycle(variables)]
fn stands_in_one<A: Allocator>(number: u16, exprs: &Vec<Expr<A>, A>) -> bool
    ensures { result ≡ stands_in_one number (exprs_seen exprs.now.items) }
{
    for i in 0..exprs.len() {
        if stands_in(number, &exprs[i]) {
            return true;
        }
    }
    false
}
