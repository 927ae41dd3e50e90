//! Why a script or a text of picks is refused: the refusal, its numbered line, and one line to fix the text by.
//!
//! Depends on tn_program and def_wording. Promises the defined numbered line, and of `explain` and `explain_term` the
//! place, the rule's words and the defined text of what breaks it; of a refused token, for something that stands
//! there.
#![tactic(auto)]

mod bytes;
mod callee;
mod command_reasons;
mod detail;
mod forms;
mod item;
mod item_starts;
mod laws;
mod limits;
mod line;
mod line_column;
mod location;
mod nearest;
mod part_reasons;
mod picks;
mod position;
mod put;
mod refusal;
mod refusal_line;
mod refused_item;
mod sessions;
mod shape_reasons;
mod shape_text;
mod skim;
mod starts;
mod step_reasons;
mod syntax;
mod variables;
mod words;

pub use laws::a_refused_text_has_its_place;
pub use line::{explain, explain_term};
pub use line_column::{LineColumn, line_column_of};
pub use refusal::{Denial, Refusal, denial_of_rules, denial_of_script};
pub use refusal_line::refusal_bytes;
pub use starts::form_offset;
