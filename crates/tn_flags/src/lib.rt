//! What passes between the node, the control list and the sessions: events with the classes of exceptions, and
//! commands; and the flags of processes.
//!
//! Depends on tn_term and on the definitions. Promises that `Flags` is a set of ten, and that
//! `inherit_spawn` and `inherit_link` are the rules of inheritance; and that the arguments of a call with
//! one more owner each are the same.
#![tactic(auto)]

mod arguments;
mod class;
mod command;
mod event;
mod flags;
mod table;

pub use arguments::{own_arguments, share_arguments};
pub use class::Class;
pub use command::Command;
pub use event::{Call, Event};
pub use flags::{Flags, flag_of, flag_of_name, inherit_link, inherit_spawn};
pub use table::FlagTable;
