//! Messages that many states keep: a message with several owners, what is kept of the messages of some sessions, and
//! which runs are followed by what is kept of them.
//!
//! Depends on tn_text and def_explore. Promises that one more owner of a message takes a count, and that what is
//! kept of two runs is equal, and is hashed alike, where the definitions keep the same.
#![tactic(auto)]

mod kept_listings;
mod list;
mod messages_by_process;
mod run_filter;
mod shared_list;
mod shared_message;

pub use kept_listings::KeptListings;
pub use list::{MessageList, same_messages, share_messages};
pub use messages_by_process::MessagesByProcess;
pub use run_filter::{AllRuns, RunFilter};
pub use shared_message::{SharedMessage, is_of_process, message_process};
