// How far a fun is read.

use crate::clause::{Clause, Head};
use crate::part::ExprState;
use crate::tree::Expr;
use std::alloc::Allocator;

/// The clauses that are read, and how many clauses of a specification they are.
#[derive(Drop)]
pub struct Earlier<A: Allocator> {
    pub clauses: Vec<Clause<A>, A>,
    pub count: usize,
}

/// A clause whose head is being read: the clauses before, the offset of its `(`, and the part of its
/// head before `=`.
#[derive(Drop)]
pub struct HeadSoFar<A: Allocator> {
    pub earlier: Earlier<A>,
    pub at: usize,
    pub first: Option<Expr<A>>,
}

/// A clause whose head is read: the clauses before, the offset of its `(`, its head, and its guards so
/// far.
#[derive(Drop)]
pub struct ClauseSoFar<A: Allocator> {
    pub earlier: Earlier<A>,
    pub at: usize,
    pub head: Head<A>,
    pub guards: Vec<Vec<Expr<A>, A>, A>,
}

/// What comes next: `fun`, the `(` of a clause, more of a head, `when` or `->`, more of a guard after
/// some conditions, more of a body after some expressions, or a full stop; or nothing may come.
#[derive(Drop)]
pub enum FunState<A: Allocator> {
    BeforeFun,
    BeforeClause(Earlier<A>),
    InHead(HeadSoFar<A>, ExprState<A>),
    AfterHead(ClauseSoFar<A>),
    InGuard(ClauseSoFar<A>, Vec<Expr<A>, A>, ExprState<A>),
    InBody(ClauseSoFar<A>, Vec<Expr<A>, A>, ExprState<A>),
    AfterEnd(Vec<Clause<A>, A>),
    AfterStop(Vec<Clause<A>, A>),
}
