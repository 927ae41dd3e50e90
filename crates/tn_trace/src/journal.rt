// The journal of a run.

/// The greatest number of journal entries.
pub const JOURNAL: usize = 65536;

/// An entry of the journal: its number from 1, and the pick that moved.
#[derive(Clone, Copy)]
pub struct JournalEntry {
    pub number: u64,
    pub pick: u32,
}
