//! Why a session refuses a command, matches no function by it or has a trap, and the texts of these reasons.
//!
//! Depends on tn_session, tn_reason, tn_trap, tn_verdict and def_explain. Promises that `command_reason` is the defined
//! reason, that `has_trap` says whether the specification of a command has a trap, and that `put_reason_after_reply`
//! and `reason_text` give the defined texts. What a reason names is lent, but for what a trap names, which is copied.
#![tactic(auto)]

mod command_reason_texts;
mod command_reasons;
mod held_trap;
mod nearest_functions;
mod trap_reasons;

pub use command_reason_texts::{put_reason_after_reply, reason_text};
pub use command_reasons::{CommandReason, absent_reason, command_reason};
pub use held_trap::{HeldBodyTrap, HeldTrap, SpecTrap};
pub use trap_reasons::has_trap;
