//! The text of an output: lines, listings and picks.
//!
//! Depends on tn_text (terms and atoms as text), tn_program and tn_trace, and on the definitions of
//! def_run. Promises that a `Line` is its item's message as text with a line feed; that `listing_text`
//! appends a session's header and its messages, a line each, and `lines_text` any terms so; that
//! `read_picks` and `write_picks` are of the one text of a list of picks; that `transcript_output`
//! gives the defined output of a program; and that an output is at least as long as its listings.
#![tactic(auto)]

mod laws;
mod line;
mod listing;
mod output;
mod picks;
mod undo;

pub use laws::an_output_has_the_listings;
pub use line::{Line, line_of};
pub use listing::{lines_text, listing_text};
pub use output::transcript_output;
pub use picks::{PicksFault, read_picks, write_picks};
