//! What a command says beside its output, on standard error, and the one function that prints it.
//!
//! Depends on def_notice, tn_text and tn_script. Promises that what a notice shows is its defined line, and that the
//! line of a refused text of moves is the defined one. It takes no memory to show a notice.
#![tactic(auto)]

mod difference;
mod fault;
mod moves;
mod notice;
mod pick_notes;
mod plain_text;
mod system;
mod test_text;

pub use difference::{
    AlignedSide, LineRange, OutputDifference, Side, aligned_difference, lack_of_lines,
    line_difference, pair_difference, return_difference,
};
pub use fault::{CommandFault, SystemReason, notice_of_fault};
pub use moves::{BadMoves, MovesReason, write_bad_moves};
pub use notice::{InputText, NodeCommand, Notice, print_notice};
pub use pick_notes::nobody_notice;
pub use plain_text::{escape_controls, plain_name};
pub use system::{print_fault, print_line, print_no_file};
pub use test_text::{TestText, TestTextFault};
