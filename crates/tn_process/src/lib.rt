//! One process of the node: the values of its variables, its frames, its mailbox, its pending exit
//! signal and its links.
//!
//! Depends on the functions of a script and on the definitions of def_node. Promises that what a process
//! does at its next step, and what it is then, are those of the definition: a function and a variable are
//! looked for at a guess before they are searched; templates are built in one go and measured as they are
//! built; the value of a variable, a message and a returned value have several owners (`SharedTerm`) and
//! are not copied, nor is the name of a variable; a call or a return changes the newest frame; an exception
//! leaves frames down to the newest that a catch step called; whatever concerns another process comes out
//! as an act, for the node to carry out; and what is known of the next step before it is made is what
//! def_outlook says of it. A `StatePart` once more stands for the same, and its values and messages have
//! one owner more; of a process in an `Arc` nothing is copied, and a process that is cloned stands for the same;
//! `same` says whether two stand for the same; nothing is promised of a fingerprint. Between two steps its frames,
//! mailbox, links and pending signal are seen as they are.
#![tactic(auto)]

mod act;
mod context;
mod env;
mod exception;
mod function;
mod functions;
mod names;
mod neighbours;
mod outlook;
mod process;
mod share;
mod state_part;
mod value;
mod values;
mod view;

pub use act::Act;
pub use env::Binding;
pub use function::function_mfa;
pub use functions::Functions;
pub use outlook::{OwnLink, RuntimeError};
pub use process::{Frame, Process};
pub use state_part::StatePart;
