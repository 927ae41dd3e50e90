//! The code of a specification.
//!
//! Depends on tn_spec and tn_code, and on the definitions of def_machine. Promises that `compile` answers
//! the code that the definitions give: it is valid, and ends with the specification's outcome.
#![tactic(auto)]

mod clauses;
mod constants;
mod emit_context;
mod exprs;
mod folds;
mod fronts;
mod heads;
mod places;

pub use clauses::compile;
