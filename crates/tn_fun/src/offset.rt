// Where an expression of a fun begins.
ghost use Rattle.std.specs.Prelude.{◌≡◌, ℕ, List};
ghost use Rattle.def_fun.specs.Trees.{first_byte as first_byte_of};
ghost use Rattle.tn_fun.specs.Trees.{fun_expr_seen};

use crate::tree::Expr;
use std::alloc::Allocator;

/// The offset of the first byte of an expression.
#[cycle(first)]
pub fn first_byte<A: Allocator>(expr: &Expr<A>) -> usize
    ensures { (text : List ℕ) → result ≡ first_byte_of (fun_expr_seen text expr.now) }
{
    match expr {
        Expr::Variable(token)
        | Expr::Atom(token)
        | Expr::Strings(token, _)
        | Expr::Call(token, _) => { token.from }
        Expr::Integer(at, _)
        | Expr::Parens(at, _)
        | Expr::List(at, _)
        | Expr::ListOnto(at, _, _)
        | Expr::Tuple(at, _)
        | Expr::Before(at, _, _) => *at,
        Expr::Between(_, _, left, _) => first_byte(left),
    }
}
