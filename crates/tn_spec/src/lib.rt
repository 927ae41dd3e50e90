//! Match specifications, read from terms.
//!
//! Depends on tn_term and on the definitions of def_spec. Promises that `spec_of` answers exactly the
//! specification that a term spells in a dialect, or its first fault.
#![tactic(auto)]

mod callee;
mod clauses;
mod expr;
mod exprs;
mod fault;
mod func;
mod heads;
mod names;
mod pattern;
mod spec;
mod table;
mod variables;

pub use callee::{Position, is_in_bodies, may_stand};
pub use clauses::{clause, spec_of};
pub use expr::Expr;
pub use fault::SpecFault;
pub use func::{Action, Dialect, Func};
pub use heads::head;
pub use names::{AtomKind, is_anything, kind_of};
pub use pattern::{Head, Pattern};
pub use spec::{Clause, Spec};
pub use table::{Callee, Row, is_unsupported, row_named};
pub use variables::Variables;
