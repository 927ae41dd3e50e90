//! Names that are near: alike but for one letter, or for two that have changed places.
//!
//! Depends on def_explain. Promises that `is_near` says exactly whether two names are.
#![tactic(auto)]

mod near_name;

pub use near_name::is_near;
