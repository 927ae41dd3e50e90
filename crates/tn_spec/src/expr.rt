// Expressions of conditions and bodies.

use crate::func::{Action, Func};
use std::alloc::Allocator;
use tn_term::Term;

/// An expression of a condition or a body.
#[derive(Drop)]
pub enum Expr<A: Allocator> {
    /// `'$N'`
    Variable(u16),
    /// `'$_'`
    WholeList,
    /// `'$$'`
    AllBound,
    /// A term as it stands.
    Constant(Term<A>),
    Tuple(Vec<Expr<A>, A>),
    List(Vec<Expr<A>, A>),
    Call(Func, Vec<Expr<A>, A>),
    /// `andalso`
    AndAlso(Vec<Expr<A>, A>),
    /// `orelse`
    OrElse(Vec<Expr<A>, A>),
    Perform(Action, Vec<Expr<A>, A>),
}
