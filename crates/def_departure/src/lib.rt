//! What is explained where no run shows a trace: the move by which the run that begins with the longest prefix departs
//! from it.
//!
//! Depends on def_term, def_script, def_run, def_explain, def_explore and def_compare. Promises, as laws, that nothing
//! is explained of a trace that is possible, and that what is explained is the move after which a run doesn't begin the
//! trace any more. There is no code.
#![tactic(auto)]

ghost use Rattle.def_departure.specs.Laws.{PossibleHasNoDeparture, DepartureEndsARun};

/// Nothing is explained of a trace that is possible. Where something is, it is the last move of a run that was followed
/// up to the move after which it doesn't begin the trace any more.
pub fn a_departure_ends_a_run()
    ensures possible { PossibleHasNoDeparture }
    ensures ends { DepartureEndsARun }
{}
