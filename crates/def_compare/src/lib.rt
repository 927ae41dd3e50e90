//! Whether a run shows the trace messages that a node printed.
//!
//! Depends on def_term, def_script, def_run, def_explore and def_renaming. Promises, as laws, that a trace which a
//! sound entry shows is possible by its journal; that one which no entry shows, where they are complete, is
//! impossible, so that no run to rest shows it; that a run found by the trace's own order shows the trace by process;
//! and that the prefix which is found is the longest.
#![tactic(auto)]

ghost use Rattle.def_compare.specs.Laws.{ComputedPairsShow, ShownHasPairs, MatchIsPossible, NoMatchIsImpossible};
ghost use Rattle.def_compare.specs.Laws.{PossibleIsNotImpossible, PossibleRests, ImpossibleHasNoRun};
ghost use Rattle.def_compare.specs.Laws.{PrefixIsLongest, NoRunHasMore};
ghost use Rattle.def_compare.specs.InOrder.{RunInOrderShows};

/// The partners of pids that are computed are some by which a run shows a trace, and are there where some are.
pub fn computed_partners_show_a_trace()
    ensures sound { ComputedPairsShow }
    ensures complete { ShownHasPairs }
{}

/// A trace that a sound entry shows is possible by its journal. One that none of complete entries shows is impossible.
/// It is never both. Where the run may not go on, it is by a run to rest, and no run to rest shows what is impossible.
pub fn a_trace_is_possible_or_impossible()
    ensures possible { MatchIsPossible }
    ensures impossible { NoMatchIsImpossible }
    ensures not_both { PossibleIsNotImpossible }
    ensures rests { PossibleRests }
    ensures no_run { ImpossibleHasNoRun }
{}

/// A run that a search in total order finds for a trace shows it by process too, where an entry that goes on from its
/// journal does; and it is at rest, unless it may go on.
pub fn a_run_in_order_shows_a_trace()
    ensures { RunInOrderShows }
{}

/// The prefix that is found begins its entry, and no entry begins with more of the messages. So no run that is
/// followed to its end does, where the entries are complete.
pub fn the_prefix_is_the_longest()
    ensures longest { PrefixIsLongest }
    ensures all_runs { NoRunHasMore }
{}
