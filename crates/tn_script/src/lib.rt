//! The forms of a script, read from its text: functions, initial processes, commands of the control list.
//!
//! Depends on tn_text and tn_flags, and on the definitions of def_script and def_refusal. Promises that `forms` answers
//! exactly the forms that a text spells, or its refusal: of the text (1 to 4), more than 256 forms (6),
//! or the first form that has no shape (5); that `shapeless_item` is the step or command for which a form has none;
//! and that copies of the parts of forms stand for the same, and comparisons tell whether they do.
#![tactic(auto)]

mod commands;
mod copies;
mod fault;
mod fields;
mod form;
mod items;
mod limits;
mod names;
mod params;
mod parts;
mod same;
mod script;
mod shapes;
mod steps;

pub use copies::{copy_entry, copy_target};
pub use fault::ScriptFault;
pub use form::{Arguments, Entry, Form, Function, Step};
pub use items::{FormItem, shapeless_item};
pub use limits::{MAX_COMMANDS, MAX_STEPS};
pub use names::is_variable;
pub use same::{same_commands, same_entries, same_functions};
pub use script::forms;
