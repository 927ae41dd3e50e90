//! What a script is: forms, their shapes and static rules, the program that they make, and how a text
//! that is none is refused.
//!
//! Depends on def_term and def_text. Promises, as laws over the definitions, that a text is the script
//! of one program or is refused in one way, and never both, and that the computed first broken rule is
//! the least of the lowest-numbered form that breaks one.
#![tactic(auto)]

mod laws;

pub use laws::{a_text_is_one_script_or_refused, the_first_broken_rule_is_computed};
