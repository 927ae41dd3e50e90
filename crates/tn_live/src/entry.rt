// What a journal has entries of, and what a turn answers.
use std::alloc::Allocator;
use tn_trace::Item;

/// An entry of the journal: the pick that moved, and the number, from 0, of the seat that made it.
#[derive(Clone, Copy, PartialEq, Eq, Drop)]
pub struct Entry {
    pub seat: u32,
    pub pick: u32,
}

/// Where a message stands: the session's number, from 1, and the place in its listing, from 0.
#[derive(Clone, Copy, PartialEq, Eq, Drop)]
pub(crate) struct ItemPlace {
    pub session: u32,
    pub index: u64,
}

/// What a seat was told of an entry that it made: the seat's number, the entry's, from 0, the pick, and
/// the messages that its move added.
#[derive(Drop)]
pub struct Receipt<A: Allocator> {
    pub seat: u32,
    pub number: u64,
    pub pick: u32,
    pub items: Vec<Item<A>, A>,
}

/// What a turn came to.
#[derive(Drop)]
pub enum Turn<A: Allocator> {
    /// The pick moved: the journal has one more entry.
    Moved(Receipt<A>),
    /// Nothing moved. The front is how many entries the journal had.
    Idle { front: u64 },
}
