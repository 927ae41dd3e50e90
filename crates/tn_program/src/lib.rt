//! Programs: forms that keep all static rules.
//!
//! Depends on tn_script and on the definitions of def_script and def_refusal. Promises that `program` answers exactly
//! the program of forms that break no rule, or the first that does and the least rule that it breaks;
//! that `breaking_item` is the step or command for which that form breaks it; that a copy is an equal program,
//! that functions with one more owner are the same, that `same` is equality, and which sessions there are, in order.
#![tactic(auto)]

mod counts;
mod creations;
mod fault;
mod gather;
mod items;
mod lookup;
mod parts;
mod rules;
mod session_rules;
mod variables;

pub use counts::{all_commands, all_creations, creation_total, function_total, process_total};
pub use creations::Sessions;
pub use fault::{Rule, RuleFault};
pub use gather::program;
pub use items::breaking_item;
pub use parts::{Program, SharedFunctions};
