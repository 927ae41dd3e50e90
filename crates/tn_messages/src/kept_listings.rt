// What is kept of the messages of some sessions.
use crate::shared_message::SharedMessage;
use std::alloc::Allocator;
use std::hash::{Hash, Hasher};

/// What is kept of the messages of some sessions: all of each in their order, or those of each process in theirs.
#[derive(Drop)]
#[derive_where(PartialEq, Eq, Hash)]
pub enum KeptListings<A: Allocator> {
    /// For each session its messages.
    Total(Vec<Vec<SharedMessage<A>, A>, A>),
    /// For each session and each of the processes 100 to 163 its messages.
    ByProcess(Vec<Vec<Vec<SharedMessage<A>, A>, A>, A>),
}
