//! The core of a run under a lock, with seats that each have seen a beginning of its journal, and receipts.
//!
//! Depends on tn_trace, and on `logbook` for what the seats know of one another's entries. Promises that a
//! book is spent or the core of its journal; that what a seat has seen is a beginning of that journal with
//! all of the seat's entries, and that a step adds to it what the journal had gained, and the step's own
//! entry; that a receipt has the messages of its move; and that a closed journal has the entries that the
//! seats made and nothing else. A step reads and copies no entry that its seat has seen.
#![tactic(auto)]

mod book;
mod closed;
mod entry;
mod live;
mod places;
mod prefix;
mod record;
mod seat;

pub use book::Book;
pub use closed::Closed;
pub use entry::{Entry, Receipt, Turn};
pub use live::{CloseFault, Live};
pub use prefix::{JournalName, NewLog};
pub use seat::{Seat, total_made};
