//! Funs as `dbg:fun2ms/1` takes them: their tokens, and the trees of their expressions.
//!
//! Depends on `def_fun` (tokens, grammar, limits, refusals), on `tn_term` and `tn_text`. Promises:
//! `tokens` gives exactly the tokens of a text, with their places; `read_fun` answers the clauses of the
//! fun that a text is, or its refusal with its place; `name_of` and `string_codes` give what a token of
//! a text spells; `first_byte` gives where an expression begins.
#![tactic(auto)]

mod body_step;
mod clause;
mod expr_end;
mod fault;
mod follow;
mod fun_state;
mod fun_step;
mod gather;
mod guard_step;
mod head_step;
mod level;
mod lexer;
mod names;
mod offset;
mod operand;
mod operator;
mod part;
mod reader;
mod scan;
mod size;
mod token;
mod tree;
mod words;

pub use clause::{Clause, Head};
pub use fault::ReadFault;
pub use lexer::tokens;
pub use names::{name_of, string_codes, token_bytes};
pub use offset::first_byte;
pub use operator::Operator;
pub use reader::read_fun;
pub use token::{Kind, Token};
pub use tree::Expr;
