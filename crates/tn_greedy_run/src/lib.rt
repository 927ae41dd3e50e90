//! The greedy run, over whatever keeps a state of a search.
//!
//! Depends on tn_explore, whose states it goes through, and on def_greedy_run. Promises that `greedy_run` gives the
//! state after the greedy run.
#![tactic(auto)]

mod greedy;

pub use greedy::greedy_run;
