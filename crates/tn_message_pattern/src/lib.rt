//! Patterns of trace messages: a term as a part of a head of a match specification, matched with a whole message.
//!
//! Depends on def_explore (what is asked about a pattern), on tn_text (terms of texts), tn_spec (heads) and tn_head
//! (bindings). Promises that `read_pattern` answers the pattern that a text spells or why it spells none, and that
//! `MessagePattern::matches` says exactly whether a message matches.
#![tactic(auto)]

mod message_pattern;
mod reading;

pub use message_pattern::{Demand, MessagePattern, PatternQuestion};
pub use reading::{PatternReading, read_pattern};
