// Why no fun has a specification, and where.

use crate::reason::Reason;
use std::alloc::Allocator;

/// A part of a clause of a specification. Numbers are from 1.
#[derive(Clone, Copy)]
pub enum ClausePart {
    Head,
    Condition(usize),
    Expression(usize),
    Body,
}

/// Why no fun has a specification: the number of the clause, from 1, its part, and the reason.
#[derive_where(Clone, Copy)]
pub struct NoFun<'a, A: Allocator> {
    pub clause: usize,
    pub part: ClausePart,
    pub reason: Reason<'a, A>,
}
