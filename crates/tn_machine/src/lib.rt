//! The machine that runs the code of a specification.
//!
//! Depends on tn_code, tn_guard and tn_action, and on the definitions of def_machine. Promises that
//! `execute` answers the outcome that the code's run ends with, and takes no step that the code doesn't
//! name. What is evaluated lies in the arena of the caller, the terms of messages too.
#![tactic(auto)]

mod advance;
mod execution;
mod memo;
mod registers;
mod steps;

pub use execution::execute;
pub use tn_action::{Context, Effect, Outcome};
