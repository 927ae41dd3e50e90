//! Texts of trace messages, as terms or as `dbg` prints them, read.
//!
//! Depends on `def_trace_text` (which messages a text spells), `tn_text` (terms) and `tn_term`. Promises that
//! `read_trace` answers the trace messages that a text spells, without stack traces, or its refusal: the first line
//! that stands for none, by its number, and why.
#![tactic(auto)]

mod dbg;
mod error_map;
mod fault;
mod line;
mod message;
mod reader;
mod stack_trace;
mod whole_line;

pub use fault::TraceFault;
pub use reader::read_trace;
