//! Tests of match specifications that no contract and no run of the program shows: an evaluation of clauses and of
//! their code, which gives back its memory; the text of code and of faults; and settings of functions, with each
//! growth of memory refused.
//!
//! Depends on the crates from tn_spec to tn_machine, on tn_index, and on test_allocator.
#![tactic(auto)]

#[cfg(test)]
mod evaluations;
#[cfg(test)]
mod faults;
#[cfg(test)]
mod instructions;
#[cfg(test)]
mod settings;
