//! What a program's schedules can give: the job of a command, and its text.
//!
//! Depends on tn_search (the search), tn_answers (the text), tn_explain (the last move of a run), tn_message_pattern
//! (patterns) and tn_run (jobs). Promises that `explore` writes the defined texts of explorations of the program's
//! runs, or of random runs, each about one session, with the move by which a run departs from a trace that none shows,
//! or the line of the one refusal; that its outcome says whether more states could change what is written, which of
//! random runs they always could, and whether what is demanded of a pattern is refuted or a trace is impossible; and
//! that `pattern_of_text` answers the pattern that a text spells, and `add_questions` adds those of several, or why one
//! spells none.
#![tactic(auto)]

mod departures;
mod in_order;
mod job;
mod questions;
mod request;
mod searches;
mod sessions;

pub use job::explore;
pub use questions::{QuestionsFault, add_questions, pattern_of_text};
pub use request::{ExploreOutcome, ExploreRequest, RandomRuns};
