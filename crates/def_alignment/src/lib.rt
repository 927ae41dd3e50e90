//! Two lists of lines side by side: which lines they have in common, and which one of them alone has.
//!
//! Depends on nothing. Promises, as a law: the common lines of an alignment are a longest common subsequence. There is
//! no code.
#![tactic(auto)]

mod laws;

pub use laws::common_lines_are_longest;
