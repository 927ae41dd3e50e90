//! A run that is explained: what each move shows, and what each session makes of it, line by line.
//!
//! Depends on tn_trace, tn_moves, tn_verdict, tn_command_reason, tn_run, tn_running_node, tn_message_choice and
//! def_explain. Promises that `put_event_lines` and the like append the defined lines, and that `explain` writes the
//! defined account, as far as the filter and the message ask, or the line of the one refusal.
#![tactic(auto)]

mod account;
mod answers;
mod calls;
mod causes;
mod clauses;
mod command_differences;
mod creations;
mod differences;
mod ends;
mod event;
mod explainer;
mod filter;
mod inheritance;
mod item_text;
mod job;
mod limits;
mod line;
mod message_explainer;
mod messages;
mod node_explainer;
mod request;
mod selection;
mod sessions;
mod slots;
mod step;
mod step_differences;

pub use account::put_account;
pub use answers::account_of;
pub use event::put_event_lines;
pub use filter::Filter;
pub use job::explain;
pub use line::{put_command_difference, put_command_line};
pub use request::{ExplainOutcome, ExplainRequest};
