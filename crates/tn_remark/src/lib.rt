//! The lines of what is remarked of a script's commands: where each begins, its number and what is said.
//!
//! Depends on tn_refusal (places) and def_explain. Promises that `put_lines` appends exactly these lines, in order,
//! each with its own command's place, number and text. The caller gives the texts.
#![tactic(auto)]

mod remark_lines;

pub use remark_lines::put_lines;
