//! The contracts of tn_message_choice are complete. Each function calls one of its functions twice on equal values. It
//! knows no more than the contract, so its proof shows that the contract leaves one answer.
//!
//! Depends on tn_message_choice. Promises nothing to other crates.
#![tactic(auto)]

mod choosers;
mod numbers;
