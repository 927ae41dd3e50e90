//! Where a head that doesn't match first differs from the list that is matched.
//!
//! Depends on tn_spec, on tn_guard's values, on tn_head's bindings, and on the definitions of def_explain. Promises
//! that `first_mismatch` is the defined difference, the first in the order of matching, with its place, what the head
//! has there and the term; and none exactly where the head matches. What it names is lent from the head or the list,
//! or lies in the arena: no term is copied.
#![tactic(auto)]

mod bindings;
mod mismatch;
mod walk;

pub use mismatch::{HeadPart, Mismatch};
pub use walk::first_mismatch;
