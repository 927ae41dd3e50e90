//! The contracts of tn_live are complete.
//!
//! Each function calls one of theirs twice on equal values: of two journals of one program, which may have different
//! logs. It knows no more than the contract, so its proof shows that the contract leaves one answer. Depends on
//! tn_live, on def_run, and on complete_scripts and complete_runs for when two answers agree.
#![tactic(auto)]

mod book;
mod closed;
mod live;
mod seat;
