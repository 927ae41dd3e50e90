//! The contracts of tn_pool and tn_run are complete.
//!
//! Each function calls one of theirs twice on equal values. It knows no more than the contract, so its proof shows that
//! the contract leaves one answer, whatever the threads, readers and writers do. Depends on these crates and def_run.
//! What a contract leaves free is a premise here.
#![tactic(auto)]

mod acceptance;
mod assembly;
mod board;
mod ends;
mod live;
mod runs;
mod token;
mod turns;
mod workers;
