//! The contracts of tn_trap are complete. Each function calls one of theirs twice on equal values. It knows no more
//! than the contract, so its proof shows that the contract leaves one answer.
//!
//! Depends on tn_spec and tn_trap. Promises nothing to other crates.
#![tactic(auto)]

mod traps;
