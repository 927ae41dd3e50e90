//! The alignment of two lists of lines: a longest common subsequence of both, and what one of them alone has.
//!
//! Depends on def_alignment. Promises that the steps of `alignment` are an alignment as it is defined there.
#![tactic(auto)]

mod rows;
mod steps;

pub use steps::{Step, alignment};
