//! The contracts of tn_fun, tn_translation and tn_fun_text are complete. Each function calls one of theirs twice on
//! equal values. It knows no more than the contract, so its proof shows that the contract leaves one answer.
//!
//! Depends on def_fun, tn_fun, tn_translation and tn_fun_text. Promises nothing to other crates.
#![tactic(auto)]

mod fun_text;
mod names;
mod offset;
mod reading;
mod specification;
mod tokens;
