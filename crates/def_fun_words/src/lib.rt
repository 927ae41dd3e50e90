//! The words of a fun: the texts of a test of its specification in them, and the notes on a fun that has one.
//!
//! Depends on `def_fun`, on `def_explain` and what they depend on. Promises, as laws over the definitions: without the
//! fun's words the lines of a test are those of `spec`; each clause of the specification has words, and a variable is
//! named as the fun has it; and a note is there exactly where the fun has what is noted. There is no code.
#![tactic(auto)]

mod laws;

pub use laws::{
    each_clause_has_words, lines_without_words_are_those_of_spec, notes_are_where_they_apply,
};
