//! Tests of the layers that no contract and no run of the program shows: calls that no command makes, the texts
//! of faults, the memory that a run may take, and an end that fails once and then works.
//!
//! Depends on tn_text, tn_flags, tn_script, tn_program, tn_session and tn_memory. It promises nothing of its own.
#![tactic(auto)]

#[cfg(test)]
mod calls;
#[cfg(test)]
mod faults;
#[cfg(test)]
mod memory;
#[cfg(test)]
mod watched;
