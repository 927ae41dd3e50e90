//! The text of what an exploration answers, as lines or as JSON: its listings with their journals, the words for
//! patterns, or whether a trace is possible; and how many states were met.
//!
//! Depends on tn_explore (what a search answers), tn_messages (what it keeps), tn_message_pattern, tn_comparison,
//! def_explore and def_compare. Promises that `search_answer` has the defined text in its form, and says whether what
//! is demanded of a pattern is refuted, whether the trace is impossible, and whether more states could change the
//! answer.
#![tactic(auto)]

mod answer_rows;
mod comparison;
mod entry;
mod form;
mod json_values;
mod last_line;
mod lines;
mod listing_rows;
mod matches;
mod text;
mod trace_rows;
mod word_rows;
mod words;

pub use entry::SessionName;
pub use form::{AnswerForm, search_answer};
pub use text::{SearchAnswer, SearchQuestion};
