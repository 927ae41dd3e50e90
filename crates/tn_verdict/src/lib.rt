//! What becomes of a clause and of a specification, and its text: why a clause doesn't fire, or what its body asks
//! for; the lines of the clauses of one specification on one list; and the text of why a term is no specification.
//!
//! Depends on tn_spec, tn_head, tn_guard and tn_action, on tn_mismatch, tn_difference and tn_reason, on tn_text, and on
//! the definitions of def_explain. Promises that `verdict` is the defined one, that `put_spec_reason` appends the
//! defined text, that `put_spec_test` appends the defined lines, and nothing where memory is refused, and that
//! `terms_of` gives the terms that the texts of a question spell. What a reason names is lent from the specification or
//! the term, or lies in the arena: no term is copied.
#![tactic(auto)]

mod clauses;
mod effects;
mod expression_text;
mod faults;
mod heads;
mod mismatch_text;
mod names;
mod no_specification;
mod reason;
mod reason_text;
mod spec_reason_texts;
mod spec_test;
mod spec_test_input;
mod variables;

pub use clauses::verdict;
pub use effects::{put_effects, put_flags};
pub use no_specification::no_specification_text;
pub use reason::{BoundWithin, ConditionReason, HeadReason, Reason, Verdict};
pub use reason_text::put_reason;
pub use spec_reason_texts::{put_setting_reason, put_spec_reason};
pub use spec_test::{put_clause, put_spec_test};
pub use spec_test_input::{
    SpecTestFault, SpecTestInput, SpecTestTerms, answer, spec_test_flags, terms_of,
};
pub use variables::stands_in;
