//! The contracts of tn_command and tn_moves are complete.
//!
//! Each function calls one of theirs twice on equal values. It knows no more than the contract, so its proof shows that
//! the contract leaves one answer. Depends on these crates. That a job has one answer is a premise of
//! `jobs::perform_over`, which the other functions of `jobs` show.
#![tactic(auto)]

mod jobs;
mod last_error;
mod moves;
mod number;
mod picks;
mod source;
mod spec_test;
mod status;
mod words;
mod workers;
