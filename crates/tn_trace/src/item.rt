// What a step answers.
use std::alloc::Allocator;
use thiserror::Error;
use tn_text::WrittenTerm;

/// A message of a session: the session's number, from 1 in the control list's order, and the message's
/// place in its listing, from 0. The message has the listing as another owner.
#[derive(Drop)]
pub struct Item<A: Allocator> {
    pub session: u32,
    pub index: u64,
    pub message: WrittenTerm<A>,
}

/// What a pick came to.
#[derive(Drop)]
pub enum Answer<A: Allocator> {
    /// It moved, and these messages were added: by the order of the events, and for one event by rising
    /// session number.
    Moved { items: Vec<Item<A>, A> },
    /// Nothing moved, and nothing changed.
    Idle,
}

/// Why a step wasn't taken.
#[derive(Clone, Copy, Debug, PartialEq, Eq, Drop, Error)]
pub enum StepFault {
    /// 14: the journal has 65,536 entries. Nothing changed.
    #[error("fault 14 limit reached")]
    LimitReached,
    /// 15: the core was refused memory in an earlier step.
    #[error("fault 15 spent")]
    Spent,
    /// The allocator refused memory. The core is spent from now on.
    #[error("fault memory")]
    OutOfMemory,
}
