// Conditions and the expressions of bodies as terms.
ghost use Rattle.tn_fun.specs.Trees.{fun_expr_seen, fun_row_seen};
ghost use Rattle.tn_term.specs.Views.{tree_of};
ghost use Rattle.tn_translation.specs.Faults.{GivesFun};
ghost use Rattle.tn_translation.specs.Values.{term_row_seen};
ghost use Rattle.tn_translation.specs.Scopes.{part_term_in, part_terms_in, text_of};

use crate::expr::{Scope, expr_translated};
use crate::fault::FunFault;
use crate::tails::within_depth;
use std::alloc::Allocator;
use tn_fun::{Expr, first_byte};
use tn_term::Term;

/// The deepest term of a condition, or of an expression of a body: a clause is three levels deeper.
const MAX_DEPTH: u8 = 29;

/// The term of a condition, or of an expression of a body.
fn part_term<A: Allocator + Copy>(
    alloc: A,
    scope: &Scope<'_, A>,
    expr: &Expr<A>,
) -> Result<Term<A>, FunFault>
    ensures { GivesFun tree_of (text_of scope.now) result
        (part_term_in scope.now (fun_expr_seen (text_of scope.now) expr.now)) }
{
    let translated = expr_translated(alloc, scope, expr)?;
    within_depth(MAX_DEPTH, first_byte(expr), translated.term)
}

/// The terms of conditions, or of the expressions of a body, in their order.
pub fn part_terms<A: Allocator + Copy>(
    alloc: A,
    scope: &Scope<'_, A>,
    exprs: &Vec<Expr<A>, A>,
) -> Result<Vec<Term<A>, A>, FunFault>
    ensures { GivesFun term_row_seen (text_of scope.now) result
        (part_terms_in scope.now (fun_row_seen (text_of scope.now) exprs.now.items)) }
{
    let mut terms = Vec::new(alloc);
    for expr in exprs {
        let term = part_term(alloc, scope, expr)?;
        terms.push(term)?;
    }
    Ok(terms)
}
