//! The state of a run after so many of its moves, as a text: its sessions and its processes.
//!
//! Depends on tn_process, tn_node, tn_session, tn_trace, tn_moves, tn_run and def_state. Promises that `state_of` gives
//! the defined text of the state after a move, as far as it is asked for, and that `show_state` writes exactly that
//! text, or the line of the one refusal.
#![tactic(auto)]

mod answers;
mod commands;
mod flags;
mod job;
mod line;
mod marks;
mod process;
mod request;
mod session;
mod settings;
mod state;

pub use answers::state_of;
pub use job::show_state;
pub use request::{StateOutcome, StateQuestion, StateRequest};
