//! The contracts of tn_fun_words are complete. Each function calls one of theirs twice on equal values. It knows no
//! more than the contract, so its proof shows that the contract leaves one answer.
//!
//! Depends on tn_fun_words, tn_verdict and tn_fun, and on complete_code and complete_funs. Promises nothing to other
//! crates.
#![tactic(auto)]

mod answer;
mod fun_words;
mod notes;
