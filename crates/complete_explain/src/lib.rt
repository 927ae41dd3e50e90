//! The contracts of tn_explain, tn_replay, tn_command_reason and tn_remark are complete.
//!
//! Each function calls one of theirs twice on equal values. It knows no more than the contract, so its proof shows that
//! the contract leaves one answer. Depends on these crates, and on complete_workers for when two runs of one text
//! agree.
#![tactic(auto)]

mod account;
mod command_reasons;
mod job;
mod lines;
mod notes;
mod remark_lines;
