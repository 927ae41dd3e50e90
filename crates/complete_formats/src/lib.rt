//! The contracts of tn_formats are complete. Each function calls one of theirs twice on equal values. It knows no
//! more than the contract, so its proof shows that the contract leaves one answer.
//!
//! Depends on tn_formats. Promises nothing to other crates.
#![tactic(auto)]

mod format;
mod lines;
mod moved_rows;
mod refusal;
