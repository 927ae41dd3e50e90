//! Instructions of compiled specifications, and code that is valid.
//!
//! Depends on tn_term, tn_text and tn_spec, and on the definitions of def_machine. Promises that a `Code` is
//! valid by its type, that `check` makes a code of exactly the instructions that the test of the definitions
//! accepts, without memory, that a copy of an instruction is the same instruction, and that `dump` appends
//! a text after what is there, or nothing.
#![tactic(auto)]

mod acceptance;
mod code;
mod copies;
mod instr;
mod names;
mod text;
mod ways;

pub use acceptance::check;
pub use code::Code;
pub use instr::{Instr, Kind, OnFault};
pub use text::dump;
