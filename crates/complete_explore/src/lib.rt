//! The contracts of tn_explore, tn_messages, tn_message_pattern, tn_answers and tn_search are complete. Each function
//! calls one of theirs twice on equal values. It knows no more than the contract, so its proof shows that the contract
//! leaves one answer.
//!
//! Depends on tn_explore, tn_messages, tn_message_pattern, tn_answers and tn_search.
#![tactic(auto)]

mod answers;
mod messages;
mod patterns;
mod programs;
mod search;

pub use search::explore;
