//! Funs as `dbg:fun2ms/1` takes them: tokens, grammar, limits, translation, refusals, and the way back.
//!
//! Depends on `def_term`, `def_text` and `def_spec`. Promises, as laws over the definitions: a text has
//! exactly one list of tokens, and the token that is found in front is the one that is there; the clauses
//! that are read are spelled by the tokens; the variables of a head are numbered in order, and each is
//! bound; computing an operator of constants changes no value; each guard of a clause is a clause of the
//! specification, with the same head and body; and what is translated for receives is translated for
//! sends, and for calls, to the same term.
#![tactic(auto)]

mod laws;

pub use laws::{
    a_dialect_with_more_actions_changes_nothing, a_fun_that_is_read_is_spelled,
    computed_constants_change_no_value, each_guard_is_a_clause, fun_tokens_are_determined,
    the_names_of_a_head_are_numbered, the_token_in_front_is_found,
};
