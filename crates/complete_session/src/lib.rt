//! The contracts of tn_session are complete. Each function calls one of theirs twice on equal values. It knows
//! no more than the contract, so its proof shows that the contract leaves one answer. The functions `_of_spent`
//! call once, since the contract names their answer.
//!
//! Depends on tn_session.
#![tactic(auto)]

mod arguments;
mod event_text;
mod look;
mod marks;
mod message;
mod session;
