//! The contracts of tn_code, tn_compile, tn_machine, tn_mismatch, tn_difference, tn_reason, tn_near_name and tn_verdict
//! are complete.
//!
//! Each function calls one of theirs twice on equal values. It knows no more than the contract, so its proof shows that
//! the contract leaves one answer. Depends on these eight crates, and on the laws of def_machine and def_text.
#![tactic(auto)]

mod clauses;
mod code;
mod differences;
mod effects;
mod execute;
mod instr;
mod mismatches;
mod near_names;
mod reasons;
mod spec_reasons;
mod spec_test;
mod spec_test_input;
mod text;
mod verdict;
