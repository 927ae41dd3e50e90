//! Which moves of a run are asked for by a message, as the run goes on.
//!
//! Depends on tn_session, tn_trace and tn_moves (sessions and runs), tn_message_pattern (what it is to match a pattern)
//! and def_message_choice. Promises that of each move it is answered whether one of the sessions that are asked about
//! chooses it, as the definitions say; and that `move_of_message` gives the move at which a session sends its message
//! of a number, and `message_count` how many it sends.
#![tactic(auto)]

mod choice;
mod choosers;
mod count;
mod finder;
mod slots;

pub use choice::{MessageChoice, MessageFilter, MessageQuestion};
pub use choosers::Choosers;
pub use finder::{message_count, move_of_message};
