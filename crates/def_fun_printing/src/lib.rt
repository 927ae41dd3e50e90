//! The laws of funs that are printed as texts, and read back: `fun --pretty`.
//!
//! Depends on `def_term`, `def_text`, `def_spec` and `def_fun`. Promises, as laws over the definitions: a fun that
//! tokens spell within the limits is read, and they spell one at most; the term of a fun is a specification, which is
//! printed; and the text that a specification within the limits is printed as has that specification again. There is
//! no code.
#![tactic(auto)]

mod laws;

pub use laws::{
    a_fun_that_is_spelled_is_read, a_printed_fun_has_its_specification,
    the_specification_of_a_fun_is_printed, the_term_of_a_fun_is_a_specification,
};
