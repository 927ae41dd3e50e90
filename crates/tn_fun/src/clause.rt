// Heads and clauses of funs as trees.

use crate::tree::Expr;
use std::alloc::Allocator;

/// The head of a clause (own): a variable or a list, or two parts with `=` between them, of which one is
/// a variable.
#[derive(Drop)]
pub enum Head<A: Allocator> {
    Alone(Expr<A>),
    Both(Expr<A>, Expr<A>),
}

/// A clause of a fun (own): the offset of its `(`, its head, its guards, each of some conditions, and
/// the expressions of its body.
#[derive(Drop)]
pub struct Clause<A: Allocator> {
    pub at: usize,
    pub head: Head<A>,
    pub guards: Vec<Vec<Expr<A>, A>, A>,
    pub body: Vec<Expr<A>, A>,
}
