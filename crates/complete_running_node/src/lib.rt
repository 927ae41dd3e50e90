//! The contracts of tn_running_node are complete. Each function calls one of its functions twice on equal values. It
//! knows no more than the contract, so its proof shows that the contract leaves one answer.
//!
//! Depends on tn_running_node. Promises nothing to other crates.
#![tactic(auto)]

mod clause;
mod comparison;
mod function_settings;
mod hides;
mod line_kinds;
mod node_moves;
mod opens;
mod session_name;
