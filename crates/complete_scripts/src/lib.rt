//! The contracts of tn_script, tn_program and tn_refusal are complete. Each function calls one of theirs twice on equal
//! values. It knows no more than the contract, so its proof shows that the contract leaves one answer.
//!
//! Depends on tn_script, tn_program and tn_refusal, and on the laws of def_script that a text is refused in one way.
#![tactic(auto)]

mod copies;
mod counts;
mod gather;
mod items;
mod lines;
mod names;
mod places;
mod program;
mod refusals;
mod same;
mod script;
