// What becomes of a clause.

use bumpalo::Bump;
use std::alloc::Allocator;
use tn_action::Effect;
use tn_guard::Value;
use tn_head::Bindings;
use tn_mismatch::Mismatch;
use tn_spec::Expr;

/// Why a head doesn't match.
#[derive_where(Clone, Copy)]
pub enum HeadReason<'a, A: Allocator> {
    /// The head is no list, and doesn't match.
    NoList,
    /// The list has another number of elements than the head.
    OtherLength,
    /// So many elements match together, and the next differs so; the place is within that element.
    AfterMatching {
        count: usize,
        mismatch: Mismatch<'a, A>,
    },
}

/// The variables that stand in a condition, with what they are bound to.
#[derive_where(Clone, Copy)]
pub struct BoundWithin<'a, A: Allocator + Copy> {
    pub condition: &'a Expr<A>,
    pub bindings: &'a Bindings<'a, A, &'a Bump<A>>,
}

/// Why a condition isn't `true`.
#[derive_where(Clone, Copy)]
pub enum ConditionReason<'a, A: Allocator + Copy> {
    /// It has this other value, with its variables.
    HasValue {
        value: Value<'a, A>,
        bound: BoundWithin<'a, A>,
    },
    /// It faults at this part.
    FaultsAt(&'a Expr<A>),
}

/// Why a clause doesn't fire.
#[derive_where(Clone, Copy)]
pub enum Reason<'a, A: Allocator + Copy> {
    /// The head doesn't match.
    ByHead(HeadReason<'a, A>),
    /// The condition after so many isn't `true`.
    ByCondition {
        index: usize,
        why: ConditionReason<'a, A>,
    },
}

/// What becomes of a clause.
#[derive(Drop)]
pub enum Verdict<'a, A: Allocator + Copy> {
    /// It doesn't fire.
    Fails(Reason<'a, A>),
    /// It fires, and its body asks for these effects. What its variables are bound to lies in the arena.
    Fires {
        bindings: &'a Bindings<'a, A, &'a Bump<A>>,
        effects: Vec<Effect<'a, A>, A>,
    },
}
