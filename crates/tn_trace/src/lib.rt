//! A run and its core: the node, the journal and what looks on; sessions, what each of them reported, and the replies.
//!
//! Depends on tn_node and tn_session, and on the definitions of def_run. Promises that a run takes a pick as def_run
//! defines it, has its observer see what each pick that moves shows, and takes no more picks than its limit; that one
//! loop takes picks, once or so many times, for any observer, and ends where the observer has more than a bound lets it
//! have; that a core that isn't spent is the core of its journal: its node, listings and replies are those that def_run
//! defines for its program and its journal's picks, each of which moved; that a step adds exactly the answer of its
//! move; that a listing goes by the session's view, which no other session changes; and that the transcript of
//! a run, which keeps text alone, has the lines, the replies and the journal of its picks. What is kept of a session's
//! messages is its user's, by `MessageSink`, what is made of a run its user's, by `Observer`, and how much of it by
//! `Bound`.
#![tactic(auto)]

mod bound;
mod discard;
mod functions;
mod item;
mod journal;
mod nobody;
mod observer;
mod pass;
mod recorder;
mod reply;
mod run;
mod run_core;
mod sessions;
mod shares;
mod sink;
mod sinks;
mod slot;
mod transcript;
mod transcript_fault;

pub use bound::{Bound, MostBytes, NoBound};
pub use discard::Discard;
pub use functions::command_at;
pub use item::{Answer, Item, StepFault};
pub use journal::{JOURNAL, JournalEntry};
pub use nobody::Nobody;
pub use observer::Observer;
pub use pass::pass_picks;
pub use recorder::Recorder;
pub use run::{Extent, PickOutcome, Run, most_moves};
pub use run_core::Core;
pub use sessions::{absent_sessions, living_after};
pub use sink::{MessageSink, SharedSink};
pub use sinks::Lines;
pub use slot::Slot;
pub use transcript::Transcript;
pub use transcript_fault::TranscriptFault;
