//! Texts of trace messages, as terms, one on a line, or as `dbg` prints them. A stack trace in a message is the empty
//! list, and so is the map of an error in it.
//!
//! Depends on `def_term` and `def_text`. Promises, as laws: a text is its lines with their ends, a line is the text of
//! a term, a full stop or none, and blanks, and a trace message is a tuple with `trace` and a pid first; no line is
//! both of a term and of `dbg`, and what `dbg` prints of a trace message of written terms is read as the text of the
//! message; the map of an error is the empty list, and a text without one stays as it is; a text spells exactly one
//! list of trace messages or is refused in exactly one way, and never both. There is no code.
#![tactic(auto)]

mod laws;

pub use laws::{
    a_line_has_one_term, a_line_is_of_one_kind, a_line_of_dbg_is_its_format,
    a_map_of_an_error_is_empty, a_message_of_dbg_is_read, a_text_spells_one_trace,
    a_whole_line_keeps_its_number, the_messages_are_tuples,
};
