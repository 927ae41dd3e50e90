//! The search through all states that the schedules of a program lead to, over whatever keeps a state.
//!
//! A run is followed as long as what is kept of it is admitted. Depends on def_explore and indexmap. Promises entries
//! that are sound, each of another listing, and, where the search ends before its limit, complete and with shortest
//! journals.
#![tactic(auto)]

mod layer;
mod search;
mod search_state;

pub use search::{Answers, Choice, Exploration, explore};
pub use search_state::SearchState;
