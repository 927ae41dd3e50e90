//! The lines that a command says beside its output, on standard error.
//!
//! Depends on `def_term` and `def_text`. Promises, as laws: each is one line, where the words that it is given are, but
//! for two lines that differ and a wrong value of the command line; a fault is said, but of a broken pipe. There is no
//! code.
#![tactic(auto)]

mod laws;

pub use laws::{a_fault_is_said, a_notice_is_one_line};
