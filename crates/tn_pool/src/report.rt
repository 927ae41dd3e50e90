// What workers hand back.
use crate::token::Token;
use std::alloc::Allocator;
use thiserror::Error;
use tn_live::{JournalName, Receipt, Seat};
use tn_trace::StepFault;

/// Why a worker ended before its turns were taken.
#[derive(Clone, Copy, Debug, PartialEq, Eq, Drop, Error)]
pub enum PoolFault {
    /// A step's fault, other than 14.
    #[error("{0}")]
    Step(StepFault),
    /// The allocator refused memory: for a receipt, for a token that was to be given back, or for what the
    /// workers need before they start.
    #[error("fault memory")]
    Memory,
}

/// What workers hand back.
#[derive(Drop)]
pub struct Report<A: Allocator, J: JournalName> {
    /// All seats, in the order in which they were handed in.
    pub seats: Vec<Seat<A, J>, A>,
    /// A receipt for each entry that the seats made: by the order of the seats, and for one seat by that of
    /// its entries.
    pub receipts: Vec<Receipt<A>, A>,
    /// The tokens that weren't given back.
    pub tokens: Vec<Token, A>,
    /// The fault of the first seat whose worker had one.
    pub fault: Option<PoolFault>,
}
