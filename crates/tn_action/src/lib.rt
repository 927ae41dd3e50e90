//! The outcome of a match specification: which clause fires, and what its body asks for.
//!
//! Depends on tn_spec, tn_head, tn_guard and tn_flags, and on the definitions of def_spec. Promises that
//! `outcome` answers the one outcome of *Outcome*, `perform` the value and the effect of one action, and
//! `trace_on` those of `trace` on a process; both go by the flags after the effects so far.
//! What is evaluated lies in the arena of the caller, or is lent, also the term of a message: no term is
//! copied.
#![tactic(auto)]

mod actions;
mod clauses;
mod context;
mod effect;
mod eval_context;
mod names;
mod trace;
mod values;

pub use actions::{ActionResult, perform};
pub use clauses::{body_effects, outcome};
pub use context::Context;
pub use effect::{Effect, Outcome};
pub use eval_context::{EvalContext, Position};
pub use trace::trace_on;
pub use values::value;
