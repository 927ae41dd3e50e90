// The parts of an expression of a fun.
ghost use Rattle.std.specs.Prelude.{◌≡◌, ◌++◌, ℕ, List, OnOk};
ghost use Rattle.def_fun_words.specs.Notes.{noted_parts_of, parts_of_each};
ghost use Rattle.tn_fun.specs.Trees.{fun_expr_seen, fun_exprs_seen};
ghost use Rattle.tn_fun_words.specs.Views.{lent_exprs_seen};

use std::alloc::{AllocError, Allocator};
use tn_fun::Expr;

/// Appends the parts of each of several expressions.
#[cycle(parts)]
fn put_each<'a, A: Allocator, B: Allocator>(
    items: &'a Vec<Expr<A>, A>,
    out: &mut Vec<&'a Expr<A>, B>,
) -> Result<(), AllocError>
    ensures { (text : List ℕ) → OnOk result (lent_exprs_seen text out.new.items
        ≡ lent_exprs_seen text out.old.items ++ parts_of_each (fun_exprs_seen text items.now.items)) }
{
    for item in items {
        put_parts(item, out)?;
    }
    Ok(())
}

/// Appends the parts of an expression, itself first, in the order of the text.
#[cycle(parts)]
pub fn put_parts<'a, A: Allocator, B: Allocator>(
    expr: &'a Expr<A>,
    out: &mut Vec<&'a Expr<A>, B>,
) -> Result<(), AllocError>
    ensures { (text : List ℕ) → OnOk result (lent_exprs_seen text out.new.items
        ≡ lent_exprs_seen text out.old.items ++ noted_parts_of (fun_expr_seen text expr.now)) }
{
    out.push(expr)?;
    match expr {
        Expr::Variable(_) => Ok(()),
        Expr::Integer(_, _) => Ok(()),
        Expr::Atom(_) => Ok(()),
        Expr::Strings(_, _) => Ok(()),
        Expr::Parens(_, inner) => put_parts(inner, out),
        Expr::Before(_, _, inner) => put_parts(inner, out),
        Expr::Call(_, items) => put_each(items, out),
        Expr::List(_, items) => put_each(items, out),
        Expr::Tuple(_, items) => put_each(items, out),
        Expr::ListOnto(_, items, tail) => {
            put_each(items, out)?;
            put_parts(tail, out)
        }
        Expr::Between(_, _, left, right) => {
            put_parts(left, out)?;
            put_parts(right, out)
        }
    }
}
