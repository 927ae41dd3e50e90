//! Workers and their turns: a run queue that holds one token for each slot, ends that take and give them,
//! and workers that step a core under its lock, each in a thread of its own; and a board, where workers put
//! the lines of their messages, with the output that is made of it and of a closed journal.
//!
//! Depends on def_turns, on tn_live for the lock, the seats and the receipts, on tn_listing for lines, and on
//! `once_cell` for the board's places. Promises that the queue is kept under the rule that no slot is
//! twice in it and in what the ends hold; that an end takes a token from the queue's front, or finds the
//! queue empty; that it gives one up at the back, or the same token comes back; that all seats come back
//! from the workers, with one receipt for each entry that they made; that a board returns only a line of the
//! session and index that were asked for; and that the output of a closed journal is the defined one,
//! whatever the board holds.
#![tactic(auto)]

mod assembly;
mod board;
mod gate;
mod report;
mod rule;
mod token;
mod turns;
mod worker;
mod workers;

pub use assembly::{JournalOutput, assemble};
pub use board::Board;
pub use gate::{Gate, Open};
pub use report::{PoolFault, Report};
pub use token::Token;
pub use turns::{RunQueue, TurnEnd};
pub use workers::run_workers;
