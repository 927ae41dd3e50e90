//! The binding of a head against the list that is matched.
//!
//! Depends on tn_spec, on tn_guard's values and on the definitions of def_spec. Promises that `bind` answers
//! the one binding of *Matching*, by rising number, and none exactly where there is none. What a variable is
//! bound to is lent: no term is copied.
#![tactic(auto)]

mod bindings;
mod matching;

pub use bindings::{Binding, Bindings, SomeBindings};
pub use matching::{bind, bind_on};
