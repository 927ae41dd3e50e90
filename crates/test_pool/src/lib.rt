//! Tests of the lock and of workers that no contract and no run of the program shows: a close without a seat, a board
//! with a line of another message, the order of tokens with three ends, and what a gate is told and when.
//!
//! Depends on tn_live and tn_pool. It promises nothing of its own.
#![tactic(auto)]

#[cfg(test)]
mod board;
#[cfg(test)]
mod gates;
#[cfg(test)]
mod lock;
#[cfg(test)]
mod turns;
