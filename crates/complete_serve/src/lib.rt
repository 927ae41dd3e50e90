//! The contracts of tn_serve are complete. Each function calls one of theirs twice on equal values. It knows no
//! more than the contract, so its proof shows that the contract leaves one answer.
//!
//! Depends on tn_serve. Promises nothing to other crates.
#![tactic(auto)]

mod answer;
mod capture;
mod request;
