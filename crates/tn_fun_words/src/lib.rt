//! The test of a fun's specification in the words of the fun, and the notes on a fun.
//!
//! Depends on `def_fun_words`, on `tn_fun` (the fun's tree and tokens), on `tn_verdict` (what becomes of clauses) and
//! on `tn_refusal` (lines and columns). Promises that `answer_in_words` gives the defined lines: those of `spec`, but
//! with the lines of the fun's clauses, the texts of its guards and the names of its variables; and that `notes_of`
//! gives the defined notes.
#![tactic(auto)]

mod answer;
mod condition;
mod fun_words;
mod names;
mod note;
mod notes;
mod numbers;
mod parts;
mod reason;
mod test_lines;
mod words;

pub use answer::answer_in_words;
pub use fun_words::FunWords;
pub use notes::notes_of;
