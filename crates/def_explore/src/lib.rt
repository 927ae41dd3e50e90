//! What is kept of the messages of a run, picks that lead to the same state, and what an exploration of all
//! runs to rest answers.
//!
//! Depends on def_term, def_spec, def_script, def_session and def_run. Promises, as laws, that closed journals
//! have all states, and that entries of those with which a run ends are complete and shortest.
#![tactic(auto)]

ghost use Rattle.def_explore.specs.Laws.{AlikeGoesOn, AlikeAreIdleAlike, AlikeHaveMovedAlike};
ghost use Rattle.def_explore.specs.Laws.{IdleIsAlike, MovesAreAlike, MovesAreOfAPass};
ghost use Rattle.def_explore.specs.Laws.{ClosedJournalsHaveAll, ClosedJournalsAreComplete, ClosedJournalsAreShortest};
ghost use Rattle.def_explore.specs.Laws.{AllRunsAreSound, AllRunsAreComplete, AllRunsAreShortest};
ghost use Rattle.def_explore.specs.Laws.{EntriesAreDetermined};
ghost use Rattle.def_explore.specs.Laws.{WordIsOne, EntriesShowAll, WordOfEntriesIsTrue};
ghost use Rattle.def_explore.specs.Laws.{NoTrueWordMeetsWhatIsRefuted, WordMeetsWhatIsNotRefuted};
ghost use Rattle.def_explore.specs.Laws.{IndependentPicksGoFirst, ReducedJournalsHaveRests, ReducedJournalsAreComplete};
ghost use Rattle.def_explore.specs.Laws.{ReducedJournalsBoundRuns, ReducedJournalsHaveEnds, ReducedEndsAreComplete};
ghost use Rattle.def_explore.specs.Laws.{ReducedEndsAreShortest};
ghost use Rattle.def_explore.specs.Settings.{CommandsDetermineSettings};

/// Picks that lead to the same state do so with whatever comes after them, after both the same picks are idle, and as
/// many picks moved in both. An idle pick leads nowhere else.
pub fn alike_picks_go_on_alike()
    ensures on { AlikeGoesOn }
    ensures idle { AlikeAreIdleAlike }
    ensures moved { AlikeHaveMovedAlike }
    ensures still { IdleIsAlike }
    ensures moves { MovesAreAlike }
{}

/// Where at most 64 processes begin, a pick that moves is one of a pass.
pub fn moves_are_of_a_pass()
    ensures { MovesAreOfAPass }
{}

/// Journals that are closed under each pick have the states of all runs that are followed. So entries of those of them
/// with which a run ends are entries of all runs to their ends, and as short as any.
pub fn closed_journals_are_complete()
    ensures all { ClosedJournalsHaveAll }
    ensures complete { ClosedJournalsAreComplete }
    ensures shortest { ClosedJournalsAreShortest }
{}

/// Where each run is followed, entries of runs to their ends are those of all runs to rest.
pub fn all_runs_are_followed()
    ensures sound { AllRunsAreSound }
    ensures complete { AllRunsAreComplete }
    ensures shortest { AllRunsAreShortest }
{}

/// Two lists of entries that are sound, complete and shortest have the same, with journals that are as long.
pub fn entries_are_determined()
    ensures { EntriesAreDetermined }
{}

/// Of a pattern one word is true at most. Where all entries say it alike, all runs do. The word that entries give is
/// true.
pub fn a_pattern_has_one_word()
    ensures one { WordIsOne }
    ensures all { EntriesShowAll }
    ensures by_entries { WordOfEntriesIsTrue }
{}

/// Where entries refute a demand, no true word is as demanded. Where they don't, and all states were tried, their word
/// is.
pub fn a_demand_is_met_or_refuted()
    ensures refuted { NoTrueWordMeetsWhatIsRefuted }
    ensures met { WordMeetsWhatIsNotRefuted }
{}

/// A run to rest leads to the same state as one that begins with a pick which is independent of all others, so that it
/// is enough to try such picks alone.
pub fn independent_picks_go_first()
    ensures first { IndependentPicksGoFirst }
    ensures rests { ReducedJournalsHaveRests }
    ensures complete { ReducedJournalsAreComplete }
{}

/// Where after each journal all picks are tried, or such picks alone, and none of the journals is full, no run fills
/// the journal. So they have each run to its end, and their entries are complete and shortest.
pub fn reduced_journals_are_complete()
    ensures bound { ReducedJournalsBoundRuns }
    ensures ends { ReducedJournalsHaveEnds }
    ensures complete { ReducedEndsAreComplete }
    ensures shortest { ReducedEndsAreShortest }
{}

/// The commands that are left determine what the commands of a session set, but for flags of processes. So states with
/// the same commands left have the same settings.
pub fn commands_determine_settings()
    ensures { CommandsDetermineSettings }
{}
