//! Why a term is no match specification: of its clauses the first that is none, and of that the first part that is
//! at fault.
//!
//! Depends on tn_spec, and on the definitions of def_explain. Promises that `spec_reason` is the defined reason. What
//! a reason names is lent from the term.
#![tactic(auto)]

mod expression_reasons;
mod head_term_reasons;
mod spec_reasons;

pub use expression_reasons::ExpressionReason;
pub use head_term_reasons::HeadTermReason;
pub use spec_reasons::{ClauseReason, ShapeReason, SpecReason, spec_reason};
