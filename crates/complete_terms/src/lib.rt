//! The contracts of tn_term, tn_flags, tn_text and tn_renaming are complete.
//!
//! Each function calls one of theirs twice on equal values. It knows no more than the contract, so its proof shows that
//! the contract leaves one answer. Depends on the four crates, and on the laws of def_text, by which a text spells one
//! term or has one refusal.
#![tactic(auto)]

mod alive;
mod arguments;
mod atom;
mod command;
mod flags;
mod mfa;
mod reader;
mod renamings;
mod scan;
mod shared_term;
mod table;
mod term;
mod watched;
mod write;
mod written_term;
