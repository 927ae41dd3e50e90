// Heads of clauses.

use std::alloc::Allocator;
use tn_term::Term;

/// A part of a head. A variable has its number, from 0 to 999.
#[derive(Drop)]
pub enum Pattern<A: Allocator> {
    /// `'$N'`
    Variable(u16),
    /// `'_'`
    Anything,
    /// A term that matches itself alone.
    Only(Term<A>),
    Tuple(Vec<Pattern<A>, A>),
    List(Vec<Pattern<A>, A>),
}

/// The head of a clause, which is held against the whole list that is matched.
#[derive(Drop)]
pub enum Head<A: Allocator> {
    /// `'$N'`, bound to the whole list.
    Variable(u16),
    /// `'_'`
    Anything,
    /// A pattern for each element.
    List(Vec<Pattern<A>, A>),
}
