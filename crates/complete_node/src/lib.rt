//! The contracts of tn_process and tn_node are complete. Each function calls one of theirs twice on equal
//! values. It knows no more than the contract, so its proof shows that the contract leaves one answer.
//!
//! Depends on tn_process and tn_node.
#![tactic(auto)]

mod function;
mod functions;
mod node;
mod process;
mod view;
