//! A run of the program: the bytes of a script and a schedule in, the bytes of an output out.
//!
//! Depends on tn_refusal, tn_formats, tn_listing, tn_moves and tn_pool. Promises that `transact` does a job with all of
//! a reader and writes its whole output, or the line or the object of the one refusal, or nothing for it; and that
//! `run` and `run_live` write the defined output.
#![tactic(auto)]

mod acceptance;
mod ends;
mod fault;
mod job;
mod last_passes;
mod laws;
mod live;
mod outcome;
mod refusal_form;
mod runs;

pub use acceptance::accept;
pub use ends::{read_text, write_output};
pub use fault::{LiveFault, RunFault};
pub use job::{DirectJob, Job, Reading, read_script, transact};
pub use laws::{a_rest_is_of_all_picks, a_run_is_as_defined};
pub use live::{LiveRun, Ran, Workers, prepare_live, run_live};
pub use outcome::{Outcome, RunRefusal};
pub use refusal_form::RefusalForm;
pub use runs::run;
pub use tn_moves::{MovesRefusal, Schedule};
pub use tn_refusal::{Denial, Refusal, refusal_bytes};
