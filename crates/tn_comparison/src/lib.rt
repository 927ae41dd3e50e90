//! Which run shows a trace, which shows its longest prefix, and which runs are followed.
//!
//! Depends on tn_renaming (partners of pids), tn_messages (what a search keeps) and tn_explore (its entries). Promises
//! that `possible_by` gives the first of the entries that shows the trace, and `longest_prefix` the first that begins
//! with the most messages of it, each with the partners of the pids; and that `message_there` gives what a run has in
//! the place of a message.
#![tactic(auto)]

mod filter;
mod lists;
mod matches;
mod orders;
mod there;
mod trace_question;

pub use matches::{TraceMatch, TracePrefix, longest_prefix, possible_by};
pub use there::{count_in, message_there};
pub use trace_question::TraceQuestion;
