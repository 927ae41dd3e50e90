//! The text of terms, read and written.
//!
//! Depends on `def_text` and `tn_term`. Promises: `tokens` gives exactly the tokens of a text, and `gap_len` and the
//! like give lengths of its parts; `read_term` and `read_terms` answer what the text spells, or its refusal with its
//! place; `write_term` and the like append one text; a `WrittenTerm` is a term beside its text, with several owners; a
//! `Watched` reader or writer remembers whether a call failed.
#![tactic(auto)]

mod fault;
mod leaf;
mod lexer;
mod name;
mod reader;
mod reserved_words;
mod scan;
mod stack;
mod value;
mod watched;
mod write;
mod written_term;

pub use fault::TextFault;
pub use lexer::{MAX_TEXT, Token, tokens};
pub use reader::{read_term, read_terms};
pub use scan::{Kind, digits_len, ends_form, gap_len, is_blank, name_len, quoted_len};
pub use watched::Watched;
pub use write::{write_atom, write_decimal, write_next, write_pid, write_term};
pub use written_term::WrittenTerm;
