//! At which moves the messages of a run are sent.
//!
//! Depends on tn_trace, and on def_formats for what the move of a message is. Promises that of each session of a
//! program the numbers of the moves of its messages, in a run by some picks, are the defined ones.
#![tactic(auto)]

mod counter;
mod moves;
mod tally;

pub use moves::message_moves;
