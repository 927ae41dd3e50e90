//! The contracts of tn_state are complete. Each function calls one of its functions twice on equal values. It knows no
//! more than the contract, so its proof shows that the contract leaves one answer.
//!
//! Depends on tn_state, and on complete_workers for when two runs of one text agree. Promises nothing to other crates.
#![tactic(auto)]

mod answers;
mod job;
