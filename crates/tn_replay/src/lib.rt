//! A run by a schedule, with its notes or without: what a running node does otherwise, and which commands are refused,
//! match no function or have a trap.
//!
//! Depends on tn_moves, tn_run, tn_running_node, tn_command_reason, tn_remark and def_explain. Promises that the job
//! `Replay` writes the defined output, and that its notes and the lines of remarks are the defined ones.
#![tactic(auto)]

mod command_starts;
mod empty_scripts;
mod laws;
mod node_commands;
mod note;
mod remark_observer;
mod replay;
mod reply_lines;
mod run_remarks;
mod traps;

pub use empty_scripts::has_no_forms;
pub use laws::a_run_with_a_note_is_a_run;
pub use node_commands::can_differ;
pub use note::{NodeNote, RunNotes, node_note, text_note};
pub use replay::{Replay, ReplayOutcome, notes_of};
pub use run_remarks::{
    remark_lines, schedule_has_remarks, schedule_remark_lines, text_has_remarks,
};
