//! The settings of functions, found by function.
//!
//! Depends on tn_term and indexmap, and on the definitions of def_session. Promises that after any list of
//! accepted function commands `get` finds the newest one that covers a function, whichever kind it is.
//! What a setting holds is the user's: a specification, or its code.
#![tactic(auto)]

mod entry;
mod function_setting;
mod settings;

pub use function_setting::{FunctionPattern, FunctionSetting, Setting};
pub use settings::Settings;
