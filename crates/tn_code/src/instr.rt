// Instructions.

use std::alloc::Allocator;
use tn_spec::{Action, Dialect, Func};
use tn_term::Term;

/// The two kinds of term that have elements.
#[derive(Clone, Copy)]
pub enum Kind {
    Tuple,
    List,
}

/// Where to go on after a fault.
#[derive(Clone, Copy)]
pub enum OnFault {
    /// At another place.
    Place(usize),
    /// At the next place, with `'EXIT'` as the value.
    Exit,
}

/// An instruction does one thing. `to` is the register that it sets, `from` a register that it reads, and
/// `place` the place, from 0, where it goes on.
#[derive(Drop)]
pub enum Instr<A: Allocator> {
    LoadConstant {
        to: usize,
        term: Term<A>,
    },
    /// The list that is matched.
    LoadList {
        to: usize,
    },
    LoadOwnPid {
        to: usize,
    },
    /// The function of the frame beneath.
    LoadCaller {
        to: usize,
    },
    /// The element with this index from 0; to `place` where there is none.
    TakeElement {
        to: usize,
        from: usize,
        index: usize,
        place: usize,
    },
    /// The list of the elements after the first; to `place` where there is none.
    TakeRest {
        to: usize,
        from: usize,
        place: usize,
    },
    /// To `place` where the term is of another kind.
    TestKind {
        from: usize,
        kind: Kind,
        place: usize,
    },
    /// To `place` where it has another number of elements.
    TestLength {
        from: usize,
        length: usize,
        place: usize,
    },
    /// To `place` where the terms differ.
    TestEqual {
        left: usize,
        right: usize,
        place: usize,
    },
    Jump {
        place: usize,
    },
    /// A tuple or list of the terms in some registers.
    Build {
        kind: Kind,
        to: usize,
        from: Vec<usize, A>,
    },
    /// The value of a function.
    Apply {
        func: Func,
        to: usize,
        from: Vec<usize, A>,
        on_fault: OnFault,
    },
    /// The value of an action, `'EXIT'` where it faults; its effect goes after the others.
    Perform {
        dialect: Dialect,
        action: Action,
        to: usize,
        from: Vec<usize, A>,
    },
    /// Clears flags of a process and sets others, by the terms in three registers; the value is whether its
    /// flags change. The effect goes after the others.
    ChangeFlags {
        to: usize,
        process: usize,
        off: usize,
        on: usize,
        on_fault: OnFault,
    },
    EndMatch,
    EndNoMatch,
}
