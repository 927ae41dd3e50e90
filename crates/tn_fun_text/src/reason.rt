// Why no fun has a term.

use std::alloc::Allocator;
use tn_term::{Atom, Term};

/// Why no fun has a term as a part of its specification. What it names is lent from the term.
#[derive_where(Clone, Copy)]
pub enum Reason<'a, A: Allocator> {
    /// The variable of this number, where that of the other must come first.
    WrongOrder(u16, u16),
    /// An atom of `$`, a sign or none, and digits, in a head.
    HeadAtom(&'a Atom<A>),
    /// A pid.
    Pid(u32),
    /// A plain atom that begins with `$`, in an expression.
    DollarAtom(&'a Atom<A>),
    /// This is `{const,T}` of another term than an atom that begins with `$`.
    OtherConst(&'a Term<A>),
    /// A call of this name with so many arguments.
    NoCall(&'a str, usize),
    /// A fun computes this operator of constants.
    Computed(&'a Term<A>),
    /// There is no expression in the body.
    EmptyBody,
}
