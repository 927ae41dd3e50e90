//! The command line of `tracenode`: its commands, and the arguments of each.
//!
//! Depends on `clap`, which reads the words. Promises that the commands have the names of `COMMAND_NAMES`, each with
//! its arguments in their order, which of them have a value, a value where they aren't given and bounds, and which of
//! them give the picks, of which one is wanted.
#![tactic(auto)]

mod arguments;
mod commands;
mod compare_command;
mod explore_command;
mod fun_command;
mod serve_command;
mod state_command;

pub use commands::command;
