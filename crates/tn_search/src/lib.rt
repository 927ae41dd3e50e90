//! The states of a program's runs, the search through all of its schedules, its greedy run, and its random runs.
//!
//! Depends on tn_explore (the search over whatever keeps a state), tn_greedy_run, tn_random_run, tn_trace (runs) and
//! tn_messages (what states keep of messages, and which runs are followed). Promises that `explore_program` gives sound
//! entries, each of another listing, and, where the search ends before its limit, complete ones with shortest journals,
//! also where it leaves out picks that others go before;
//! that `greedy_program` gives the entry of the greedy run; and that `random_program` gives those of the random runs of
//! a seed, which are sound.
#![tactic(auto)]

mod exploration;
mod greedy;
mod process_sink;
mod program_state;
mod random;
mod ready_picks;
mod reduction;
mod search_sink;
mod session_states;
mod total_sink;

pub use exploration::{ListingOrder, SearchPlan, explore_program};
pub use greedy::greedy_program;
pub use process_sink::ProcessSink;
pub use program_state::ProgramState;
pub use random::random_program;
pub use search_sink::SearchSink;
pub use total_sink::TotalSink;
