//! The text of terms and scripts: tokens, grammar, limits, what a text spells, how it is refused, and places in it.
//!
//! Depends on `def_term`. Promises, as laws over the definitions: a text has exactly one list of
//! tokens; the fold over tokens reads exactly what the grammar derives within the limits, and
//! refuses at the first fault; a text within the length spells exactly one term or is refused in
//! exactly one way, and never both; the same of a script's list of terms; and the written text of
//! a term within the limits spells that term. The bytes before an offset are whole lines and then
//! `column - 1` bytes without a line feed, and no other place is so; a form begins after the full
//! stops of the forms before it, at one offset. There is no code.
#![tactic(auto)]

mod laws;

pub use laws::{
    a_form_begins_after_full_stops, a_leaf_is_written_as_its_token, a_place_counts_lines_and_bytes,
    a_text_spells_one_script, a_text_spells_one_term, one_byte_on, reading_a_script_is_exact,
    reading_is_exact, tokens_are_determined, written_text_spells,
};
