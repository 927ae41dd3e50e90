//! What is asked of a program and its sessions before one of its picks is tried alone: whether its functions make or
//! remove links, and whether specifications act on their own process alone.
//!
//! Depends on tn_script, tn_spec, tn_session and def_independence. Promises that the answers are those that the
//! definitions give.
#![tactic(auto)]

mod links;
mod own_effects;

pub use links::change_links;
pub use own_effects::session_acts_on_self;
