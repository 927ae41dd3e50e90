//! What a term is: a finite tree of five kinds; its order, its depth and size, its written text.
//!
//! Depends on no other crate. Promises, as laws, that the order of terms is total and that only
//! equal terms compare as equal. Everything else here is definition, for every crate above.
#![tactic(auto)]

ghost use Rattle.def_term.specs.Laws.{OrderIsTotal, OnlyItselfIsEqual};

/// The order of terms is total, and only a term and itself compare as equal.
pub fn order_is_total()
    ensures total { OrderIsTotal }
    ensures exact { OnlyItselfIsEqual }
{}
