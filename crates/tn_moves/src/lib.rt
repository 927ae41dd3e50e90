//! Which picks a run takes: those of a text or of a text of moves, or a round, also after the control list.
//!
//! Depends on tn_trace, tn_listing (texts of picks) and def_moves. Promises that a schedule's plan has the picks that
//! are asked for, or is refused, and that `drive` runs a program by it for any observer.
#![tactic(auto)]

mod course;
mod directive;
mod mover;
mod piece;
mod plan;
mod schedule;
mod text;
mod transcript;

pub use course::{drive, drive_within, moves_of_plan};
pub use directive::Directive;
pub use mover::{number, pids_named};
pub use piece::{amount_len, mover_len};
pub use plan::Plan;
pub use schedule::Schedule;
pub use text::{MovesFault, MovesRefusal, directives_of_text};
pub use transcript::transcript_of_plan;
