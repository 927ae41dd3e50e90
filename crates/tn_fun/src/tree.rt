// Expressions of funs as trees.

use crate::operator::Operator;
use crate::token::Token;
use std::alloc::Allocator;

/// An expression or a pattern of a fun's text (own). A name or a string is a token of the text. Any
/// other node has the offset of its token: of an operator that of the operator, else that of its first.
#[derive(Drop)]
pub enum Expr<A: Allocator> {
    Variable(Token),
    Integer(usize, u64),
    Atom(Token),
    /// Strings beside each other: the first, and the others.
    Strings(Token, Vec<Token, A>),
    Parens(usize, Box<Expr<A>, A>),
    /// A call, with the token of its name.
    Call(Token, Vec<Expr<A>, A>),
    List(usize, Vec<Expr<A>, A>),
    /// A list with a tail.
    ListOnto(usize, Vec<Expr<A>, A>, Box<Expr<A>, A>),
    Tuple(usize, Vec<Expr<A>, A>),
    /// An operator before its operand.
    Before(usize, Operator, Box<Expr<A>, A>),
    /// An operator between its operands.
    Between(usize, Operator, Box<Expr<A>, A>, Box<Expr<A>, A>),
}
