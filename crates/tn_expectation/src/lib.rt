//! What the output of a command must be, and what is said of one that isn't.
//!
//! Depends on tn_formats, tn_alignment and tn_notice. Promises whether an output is what is expected: its bytes, the
//! listing of a session, and lines that it must have and must not have; and which of these lines is the first at fault.
#![tactic(auto)]

mod alignment;
mod difference;
mod expectation;
mod listing;
mod unmet;

pub use expectation::Expectation;
pub use listing::{SessionListing, listing_head};
