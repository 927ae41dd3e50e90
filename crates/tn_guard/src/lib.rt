//! The functions of conditions and bodies, on values.
//!
//! Depends on tn_term, tn_text, tn_spec and on the definitions of def_spec. Promises that `apply` answers the value of
//! one function on values, and none exactly where that is a fault, and that `write_value` appends the text of a value.
//! A term that is looked at is lent. `copy_into`, `lent_values` for its list and `write_value` alone take memory.
#![tactic(auto)]

mod arithmetic;
mod copies;
mod elements;
mod functions;
mod kind;
mod list_view;
mod logic;
mod shape;
mod shared_terms;
mod value;
mod value_text;

pub use functions::apply;
pub use list_view::ListView;
pub use shared_terms::lent_values;
pub use value::{AtomConst, Value};
pub use value_text::write_value;
