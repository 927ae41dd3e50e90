//! The contracts of tn_trace and tn_listing are complete. Each function calls one of theirs twice on equal
//! values. It knows no more than the contract, so its proof shows that the contract leaves one answer.
//!
//! Depends on tn_trace and tn_listing, on the laws of def_run, and on complete_scripts for when two answers agree.
#![tactic(auto)]

mod functions;
mod line;
mod listing;
mod message_moves;
mod output;
mod picks;
mod recorder;
mod run;
mod run_core;
mod sessions;
mod sink;
mod slot;
mod transcript;
