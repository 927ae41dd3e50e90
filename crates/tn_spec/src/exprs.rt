// Expressions, read from terms.
ghost use Rattle.std.specs.Prelude.{◌≡◌, ◌==◌, ◌<◌, ◌&&◌, length, codes};
ghost use Rattle.std.specs.Str.{bytes_eq};
ghost use Rattle.def_term.specs.Tree.{tuple};
ghost use Rattle.def_spec.specs.Reading.{a_plain_atom, atom_kind, atom_expr_of_kind, call_of};
ghost use Rattle.def_spec.specs.Matching.{Pattern};
ghost use Rattle.tn_term.specs.Views.{tree_of, trees_of};
ghost use Rattle.tn_spec.specs.Answers.{IsRead};
ghost use Rattle.tn_spec.specs.Names.{called_seen};
ghost use Rattle.tn_spec.specs.Readings.{head_in, expr_in, call_reads, exprs_in, part_in};
ghost use Rattle.tn_spec.specs.Views.{expr_seen, expr_list};

use crate::callee::{Position, callee_of};
use crate::expr::Expr;
use crate::fault::SpecFault;
use crate::func::Dialect;
use crate::names::{AtomKind, kind_of};
use crate::pattern::Head;
use crate::table::Callee;
use crate::variables::Variables;
use std::alloc::Allocator;
use tn_term::{Atom, Term};

/// The expression that an atom is, if it is no variable.
fn plain_expr<A: Allocator>(alloc: A, name: &Atom<A>) -> Result<Expr<A>, SpecFault<A>>
    ensures { (head : Pattern) → IsRead expr_seen (atom_expr_of_kind head name.now a_plain_atom) result }
{
    match name.text() {
        "$_" => Ok(Expr::WholeList),
        "$$" => Ok(Expr::AllBound),
        _ => Ok(Expr::Constant(Term::Atom(name.copy_into(alloc)?))),
    }
}

/// The expression that an atom is.
fn atom_expr<A: Allocator>(
    alloc: A,
    name: &Atom<A>,
    head: &Variables<'_, A>,
) -> Result<Expr<A>, SpecFault<A>>
    ensures { IsRead expr_seen (atom_expr_of_kind (head_in head.now) name.now (atom_kind name.now)) result }
{
    match kind_of(name.text()) {
        AtomKind::Variable(n) => {
            if head.has(n) {
                Ok(Expr::Variable(n))
            } else {
                Err(SpecFault::Badarg)
            }
        }
        AtomKind::WrongVariable => Err(SpecFault::Badarg),
        AtomKind::Plain => plain_expr(alloc, name),
    }
}

/// The call with these arguments.
fn call<A: Allocator>(called: Callee, args: Vec<Expr<A>, A>) -> Expr<A>
    ensures { expr_seen result ≡ call_of (called_seen called) (expr_list args) }
{
    match called {
        Callee::Func(func) => Expr::Call(func, args),
        Callee::AndAlso => Expr::AndAlso(args),
        Callee::OrElse => Expr::OrElse(args),
        Callee::Action(action) => Expr::Perform(action, args),
    }
}

/// Whether a tuple of this name and so many further elements is `{const,T}`.
fn is_const(text: &str, further: usize) -> bool
    ensures { result ≡ (bytes_eq text.now (codes "const") && further == 1) }
{
    text == "const" && further == 1
}

/// The expression that the term is.
#[cycle(expr)]
fn expr<A: Allocator + Copy>(
    alloc: A,
    term: &Term<A>,
    dialect: Dialect,
    part: Position,
    head: &Variables<'_, A>,
) -> Result<Expr<A>, SpecFault<A>>
    ensures { IsRead expr_seen (expr_in dialect part head.now (tree_of term.now)) result }
{
    match term {
        Term::Int(n) => Ok(Expr::Constant(Term::Int(*n))),
        Term::Atom(name) => atom_expr(alloc, name, head),
        Term::Pid(n) => Ok(Expr::Constant(Term::Pid(*n))),
        Term::Tuple(v) => tuple_expr(alloc, &**v, dialect, part, head),
        Term::List(v) => Ok(Expr::List(exprs(alloc, &**v, 0, dialect, part, head)?)),
    }
}

/// The expression that a tuple of these elements is.
#[cycle(expr)]
fn tuple_expr<A: Allocator + Copy>(
    alloc: A,
    terms: &Vec<Term<A>, A>,
    dialect: Dialect,
    part: Position,
    head: &Variables<'_, A>,
) -> Result<Expr<A>, SpecFault<A>>
    ensures { IsRead expr_seen (expr_in dialect part head.now (tuple (trees_of terms.now.items))) result }
{
    if terms.len() == 0 {
        return Err(SpecFault::Badarg);
    }
    match &terms[0] {
        Term::Tuple(v) => {
            if terms.len() == 1 {
                Ok(Expr::Tuple(exprs(alloc, &**v, 0, dialect, part, head)?))
            } else {
                Err(SpecFault::Badarg)
            }
        }
        Term::Atom(name) => call_expr(alloc, terms, name, dialect, part, head),
        Term::Int(_) | Term::Pid(_) | Term::List(_) => Err(SpecFault::Badarg),
    }
}

/// The expression that a tuple of the name and the elements after the first is.
#[cycle(expr)]
fn call_expr<A: Allocator + Copy>(
    alloc: A,
    terms: &Vec<Term<A>, A>,
    name: &Atom<A>,
    dialect: Dialect,
    part: Position,
    head: &Variables<'_, A>,
) -> Result<Expr<A>, SpecFault<A>>
    requires { 0 < length terms.now.items }
    ensures { IsRead expr_seen (call_reads dialect part head.now name.now terms.now) result }
{
    let args = terms.len() - 1;
    if is_const(name.text(), args) {
        return Ok(Expr::Constant(terms[1].share()?));
    }
    let called = callee_of(alloc, dialect, part, name, args)?;
    let args = exprs(alloc, terms, 1, dialect, part, head)?;
    Ok(call(called, args))
}

/// The expressions that the terms are in that part of a clause with this head.
pub fn exprs_of<A: Allocator + Copy>(
    alloc: A,
    terms: &Vec<Term<A>, A>,
    dialect: Dialect,
    part: Position,
    head: &Head<A>,
) -> Result<Vec<Expr<A>, A>, SpecFault<A>>
    ensures { IsRead expr_list (part_in dialect part head.now terms.now) result }
{
    let variables = Variables::of(head);
    exprs(alloc, terms, 0, dialect, part, &variables)
}

/// The expression that each of the terms is, from that place on.
#[cycle(expr)]
fn exprs<A: Allocator + Copy>(
    alloc: A,
    terms: &Vec<Term<A>, A>,
    from: usize,
    dialect: Dialect,
    part: Position,
    head: &Variables<'_, A>,
) -> Result<Vec<Expr<A>, A>, SpecFault<A>>
    ensures { IsRead expr_list (exprs_in dialect part head.now terms.now from) result }
{
    let mut exprs = Vec::new(alloc);
    for i in from..terms.len() {
        exprs.push(expr(alloc, &terms[i], dialect, part, head)?)?;
    }
    Ok(exprs)
}
