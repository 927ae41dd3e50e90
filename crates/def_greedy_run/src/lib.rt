//! The greedy run: at each move it takes the first pick after which what is kept is still admitted.
//!
//! Depends on def_term, def_script, def_run, def_explore and def_compare. Promises, as laws, that it is a run, that
//! what is kept of it is admitted, and that a run which goes on from it and shows a trace by process is one that does
//! from the first picks on. There is no code.
#![tactic(auto)]

ghost use Rattle.def_greedy_run.specs.Laws.{GreedyRunMoves, GreedyRunIsAdmitted, GreedyRunShows};

/// A greedy run goes on from the picks that it begins with, each of its picks moves, and what is kept of it is admitted
/// where it was at first.
pub fn a_greedy_run_is_a_run()
    ensures moves { GreedyRunMoves }
    ensures admitted { GreedyRunIsAdmitted }
{}

/// A run that goes on from the greedy run and shows a trace by process shows it from the first picks on; and it is at
/// rest, unless it may go on.
pub fn a_greedy_run_shows_a_trace()
    ensures { GreedyRunShows }
{}
