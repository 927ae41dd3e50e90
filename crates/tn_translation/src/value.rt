// What expressions are translated to.

use std::alloc::Allocator;
use tn_term::Term;

/// The term of an expression, and its value where it is a constant.
#[derive(Drop)]
pub struct ExprTerm<A: Allocator> {
    pub term: Term<A>,
    pub constant: Option<Term<A>>,
}

/// The terms of several expressions, and their values where all are constants.
#[derive(Drop)]
pub struct Elements<A: Allocator> {
    pub terms: Vec<Term<A>, A>,
    pub constants: Option<Vec<Term<A>, A>>,
}
