//! Match specifications printed as funs, as `tracenode fun --pretty` prints them.
//!
//! Depends on `def_fun` (texts of funs, calls, constants), on `tn_fun` (operators), `tn_spec` (dialects,
//! kinds of atoms), `tn_term` and `tn_text`. Promises: `write_fun` appends the text of the fun that has a
//! specification, or answers why no fun has it; `NoFun::write` appends the line that says so; `fun_of_spec` gives the
//! fun or that line for a text, or the fault of one that spells no specification. A reason refers to what it names in
//! the term.
#![tactic(auto)]

mod calls;
mod check;
mod clause_check;
mod clause_text;
mod constants;
mod expr_text;
mod fun_text;
mod funs_of_specs;
mod integers;
mod leaf_text;
mod lists;
mod no_fun;
mod operators;
mod pattern_check;
mod pattern_text;
mod printed_call;
mod reason;
mod reason_text;
mod scope;
mod values;

pub use clause_check::FunTextFault;
pub use fun_text::write_fun;
pub use funs_of_specs::{FunOfSpec, fun_of_spec};
pub use no_fun::{ClausePart, NoFun};
pub use reason::Reason;
