// Where an expression of a fun begins.
ghost use Rattle.std.specs.Prelude.{◌≡◌, ℕ, List};
ghost use Rattle.tn_fun.specs.Trees.{fun_expr_seen};

use std::alloc::Allocator;
use tn_fun::Expr;

/// `tn_fun::first_byte` has one answer.
pub fn first_byte<A: Allocator>(one: &Expr<A>, other: &Expr<A>) -> (usize, usize)
    requires { (text : List ℕ) → fun_expr_seen text one.now ≡ fun_expr_seen text other.now }
    ensures { result.0 ≡ result.1 }
{
    (tn_fun::first_byte(one), tn_fun::first_byte(other))
}
