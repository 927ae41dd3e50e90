//! What the line that explains a refusal says.
//!
//! Depends on `def_text`, `def_script`, `def_refusal` and `def_explain`. Promises, as laws: a broken rule other than
//! past limits, and a term without the shape of a step or a command, have a reason; an item of `def_refusal` that is
//! a command begins where `def_explain` has this command begin. There is no code.
#![tactic(auto)]

mod laws;

pub use laws::{
    a_broken_rule_has_a_reason, a_command_begins_at_one_offset, a_shapeless_term_has_a_reason,
};
