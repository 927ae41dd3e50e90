//! The step or the command that a script is refused for, and where it begins.
//!
//! Depends on def_term, def_text and def_script. Promises, as laws over the definitions, that a refusal of a text is
//! of one step or command or of none, which begins at one offset; that this one is the one with which its form breaks
//! the rule, or for which it has no shape; and that it stands after the elements before it and their commas.
#![tactic(auto)]

mod laws;

pub use laws::{
    a_refusal_has_one_item, a_shapeless_item_is_no_form, an_element_is_after_commas,
    an_item_breaks_the_rule,
};
