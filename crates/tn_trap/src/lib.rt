//! Traps: which clause of a match specification does nothing where something was meant, and its line.
//!
//! Depends on tn_spec and tn_flags, and on the definitions of def_trap. Promises that `first_trap` is the defined first
//! trap of clauses, and that `write_trap` appends its defined line. What a trap names is lent from the clauses.
#![tactic(auto)]

mod arguments;
mod clauses;
mod text;
mod trap;

pub use clauses::first_trap;
pub use text::write_trap;
pub use trap::{BodyTrap, Trap};
