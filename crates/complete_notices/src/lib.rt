//! The contracts of tn_notice and tn_expectation are complete. Each function calls one of theirs twice on equal values.
//! It knows no more than the contract, so its proof shows that the contract leaves one answer.
//!
//! Depends on tn_notice and tn_expectation. Promises nothing to other crates.
#![tactic(auto)]

mod expectation;
mod moves;
mod notices;
mod plain_text;
