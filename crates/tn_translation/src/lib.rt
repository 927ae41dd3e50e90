//! The specification of a fun, as `dbg:fun2ms/1` has it.
//!
//! Depends on `def_fun` (translation, constants, refusals), on `tn_fun` (the fun's tree), `tn_spec`
//! (dialects, names that are left out), `tn_term` and `tn_text`. Promises: `spec_of_text` gives exactly
//! the specification of a text for a dialect, or its refusal with its place; an operator of constants
//! gives what is defined.
#![tactic(auto)]

mod alternatives;
mod answer;
mod atoms;
mod calls;
mod constants;
mod expr;
mod fault;
mod head;
mod integers;
mod names;
mod operators;
mod parts;
mod pattern;
mod refusal;
mod spec;
mod spec_clauses;
mod spec_so_far;
mod tails;
mod value;

pub use answer::{FunAnswer, fun_answer};
pub use fault::FunFault;
pub use spec::{FunSpec, spec_of_text};
