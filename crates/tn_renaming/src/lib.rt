//! Pairs of pids by which messages of a trace are the first ones of what a run shows.
//!
//! Depends on def_renaming and tn_term. Promises that `first_renaming` gives the pairs that are defined there, and none
//! where there are none.
#![tactic(auto)]

mod pairs;
mod search;
mod terms;

pub use pairs::PidPair;
pub use search::first_renaming;
