// What a clause has that does nothing.
use std::alloc::Allocator;
use tn_spec::Action;
use tn_term::{Atom, Term};

/// What an expression of a body is that has no effect.
#[derive_where(Clone, Copy)]
pub enum BodyTrap<'a, A: Allocator> {
    /// The name of an action, which is a constant.
    NamesAction(&'a Atom<A>),
    /// An action that marks a call, where there is no call.
    MarksNoCall(Action),
    /// An action that changes flags, and what stands where it takes a flag or a list of flags.
    LacksFlag(Action, &'a Term<A>),
}

/// What a clause has.
#[derive_where(Clone, Copy)]
pub enum Trap<'a, A: Allocator> {
    /// Its head is a list of so many elements, and no list that is matched has as many.
    OfHead {
        elements: usize,
    },
    /// An expression of its body.
    OfBody {
        /// How many expressions are before it.
        before: usize,
        trap: BodyTrap<'a, A>,
    },
}
