//! The contracts of tn_spec, tn_guard, tn_head, tn_action and tn_index are complete.
//!
//! Each function calls one of theirs twice on equal values. It knows no more than the contract, so its proof shows
//! that the contract leaves one answer. Depends on these five crates and on the definitions that their contracts
//! name.
#![tactic(auto)]

mod actions;
mod bindings;
mod callee;
mod eval_context;
mod fault;
mod function_setting;
mod functions;
mod head;
mod matching;
mod names;
mod outcome;
mod parts;
mod settings;
mod spec;
mod value;
mod values;
