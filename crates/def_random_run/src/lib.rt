//! Random runs: at each move one of the picks that move, drawn by a number from a seed; and the entries of several.
//!
//! Depends on def_term, def_script, def_run and def_explore. Promises, as laws, that each is a run, which is at rest
//! where it has fewer moves than it may have; that the entries of several are sound, and each of another listing; and
//! that they go through at most as many states as they may. There is no code.
#![tactic(auto)]

ghost use Rattle.def_random_run.specs.Laws.{RandomRunMoves, RandomRunIsBounded, RandomRunRests, PassIsAtRest};
ghost use Rattle.def_random_run.specs.Laws.{RandomEntriesAreSound, RandomEntriesAreDistinct, RandomStatesAreBounded};

/// A random run goes on from the picks that it begins with, and each of its picks moves.
pub fn a_random_run_is_a_run()
    ensures { RandomRunMoves }
{}

/// It has at most so many moves, and is at rest where it has fewer.
pub fn a_random_run_goes_to_rest()
    ensures bounded { RandomRunIsBounded }
    ensures rests { RandomRunRests }
    ensures pass { PassIsAtRest }
{}

/// The entries of several random runs are sound and distinct.
pub fn random_entries_are_sound()
    ensures sound { RandomEntriesAreSound }
    ensures distinct { RandomEntriesAreDistinct }
{}

/// Several random runs go through at most so many states.
pub fn random_states_are_bounded()
    ensures { RandomStatesAreBounded }
{}
