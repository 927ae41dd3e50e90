//! What the trace sessions of a running node report of a run, beside what the model's own sessions show.
//!
//! Depends on tn_session and tn_trace (sessions and runs), tn_node (what is known of a step before it is made), and
//! tn_difference (what a node does otherwise). Promises that the lines of each move, session by session, are the
//! defined ones, and that the moves of a run that have lines are those that are defined.
#![tactic(auto)]

mod actor;
mod arguments;
mod clause;
mod comparison;
mod firing_bindings;
mod function_settings;
mod hides;
mod lines;
mod logic_calls;
mod messages;
mod node_mark;
mod node_moves;
mod node_run;
mod node_session;
mod opens;
mod pair;
mod replies;
mod same_message;
mod session_name;
mod sight;
mod signals;

pub use actor::Actor;
pub use clause::{ClauseDifferences, clause_differences};
pub use comparison::Comparison;
pub use function_settings::{is_among, is_covered, is_empty_list, is_on_where_read, is_set};
pub use hides::is_attempt_by;
pub use lines::LineKinds;
pub use node_moves::moves_that_differ;
pub use opens::concerns;
pub use session_name::is_session;
