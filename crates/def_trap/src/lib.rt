//! Traps: clauses of match specifications that a command takes, and that do nothing where something was meant.
//!
//! Depends on def_term and def_spec. Promises, as laws: an expression of a body that is a trap adds no effect to those
//! of its arguments, and a clause whose head is one fires for no list that is matched. There is no code.
#![tactic(auto)]

mod laws;

pub use laws::{a_body_trap_does_nothing, a_head_trap_does_nothing};
