//! What a command of the command line does once its words are read, and its exit status.
//!
//! Depends on tn_run, tn_replay, tn_explain, tn_state, tn_picture, tn_exploration, tn_formats and tn_notice. Promises
//! that each job is done as its crate says, in its format and within its bound, and that the status is its answer's, or
//! 1 for an unmet expectation, a refuted demand or a flaw under `--strict`, or 4 for an exploration that isn't
//! complete; and which notice there is of a fault, of an outcome and of refused moves.
#![tactic(auto)]

mod bad_value;
mod command;
mod draw;
mod expectation_file;
mod explore;
mod in_format;
mod jobs;
mod judgement;
mod last_error;
mod lists_as_calls;
mod moves_line;
mod number;
mod output_fault;
mod output_form;
mod picks;
mod remarks;
mod run_outline;
mod source;
mod spec_format;
mod spec_lists;
mod spec_notes;
mod spec_test;
mod start;
mod state;
mod status;
mod stderr;
mod tee;
mod within_bytes;
mod words;
mod workers;
mod workers_form;

pub use bad_value::{BadValue, refuse_value};
pub use command::Command;
pub use expectation_file::expected_text;
pub use explore::{INCOMPLETE, explore_script, print_exploration_over};
pub use in_format::InFormat;
pub use jobs::{INPUT, Streams, perform, perform_over, print_over};
pub use last_error::LastError;
pub use lists_as_calls::the_list_as_call_is_the_first;
pub use number::{long_number, plain_number};
pub use output_fault::OutputFault;
pub use output_form::{MAX_MEMORY, MAX_OUTPUT, OutputForm};
pub use picks::{picks_of, picks_over};
pub use source::{Source, open, source_of};
pub use spec_format::test_spec_in_format_over;
pub use spec_lists::{test_headed_spec_over, test_specs};
pub use spec_notes::a_list_of_another_length_is_none_of_the_dialect;
pub use spec_test::{
    SpecTestRunFault, spec_test_end, tell_question, tell_spec_test, test_spec, test_spec_over,
};
pub use start::Start;
pub use status::{FAULT, JobEnd, REFUSED, UNMET, report};
pub use stderr::{NamedText, run_fault};
pub use within_bytes::WithinBytes;
pub use words::arguments;
pub use workers::{WorkersRun, run_workers, run_workers_over};
pub use workers_form::run_workers_in_form_over;
