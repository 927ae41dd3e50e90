//! Messages of a trace that are the first ones of what a run shows, but for pids: each pid of the trace is replaced by
//! one of the run, one to one.
//!
//! Depends on def_term. Promises, as laws, that pairs of pids that are found are such, and that they are found where
//! there are some. There is no code.
#![tactic(auto)]

mod laws;

pub use laws::{a_renaming_is_found, pairs_of_a_prefix_are_least};
