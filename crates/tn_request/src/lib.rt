//! What the command line asks for, once its words are read, and the job that this is.
//!
//! Depends on tn_command, and on the crates of its jobs. Promises that the schedule, the job, the workers, the trial,
//! the exploration and the trace of a request are the defined ones, and that a writer gains what the defined job writes
//! of a reader's script.
#![tactic(auto)]

mod answer;
mod comparison;
mod exploration;
mod fun_text;
mod inputs;
mod job;
mod message;
mod output;
mod request;
mod schedule;
mod trial;
mod workers;

pub use answer::{answer_request, perform_request_over, print_request_over};
pub use comparison::{put_trace_fault, trace_of};
pub use exploration::{PatternsFault, exploration_of, patterns_of};
pub use fun_text::fun_text_of;
pub use job::{RequestJob, RequestOutcome, format_of, job_of};
pub use output::{ExpectedTexts, expectation_of, expected_texts};
pub use request::{
    ExpectationArgs, ExploreArgs, FunArgs, MessageArgs, MessageRequest, PicksSource, Request,
    RunRequest, RunSource, SessionArgs, SpecTestArgs, TextSource, WorkersRequest,
};
pub use schedule::schedule_of;
pub use trial::spec_input_of;
pub use workers::{run_workers_request_over, workers_job_of, workers_of};
