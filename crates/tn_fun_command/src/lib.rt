//! The command `fun`: the specification of a fun's text on standard output, or its refusal; and the fun of a
//! specification's text. `spec --fun`: a trial of the specification of a fun, in the fun's words.
//!
//! Depends on `tn_translation`, which answers a text, on `tn_fun_text` (funs of specifications), on `tn_fun_words` (the
//! words of a fun and the notes on it), on `tn_run` and `tn_command` (ends and statuses) and on `tn_refusal` (lines and
//! columns). Promises that the writer gains exactly the defined answer and a line feed, with status 0, or with status 2
//! beside the refusal; that a fault says what was written; that what is said of a refusal is the defined line; that the
//! fun of a specification is the defined one, or the reason why no fun has it; and that a trial of a fun is answered
//! with the defined lines in the fun's words.
#![tactic(auto)]

mod command;
mod notes;
mod notice;
mod pretty;
mod trial;

pub use command::{answer_fun_over, print_fun};
pub use notice::put_notice;
pub use pretty::{answer_spec_over, print_fun_of_spec};
pub use trial::{test_fun, test_fun_over};
