//! Random runs, over whatever keeps a state of a search, and the listings of several.
//!
//! Depends on tn_explore, whose states they go through, on def_random_run and indexmap. Promises that `random_run`
//! gives the state after the random run of a seed, and that `random_search` gives the entries of several random runs
//! and how many states they go through.
#![tactic(auto)]

mod numbers;
mod pick;
mod run;
mod search;

pub use numbers::{mixture_of, number_of, seed_after};
pub use run::random_run;
pub use search::{RandomPlan, random_search};
