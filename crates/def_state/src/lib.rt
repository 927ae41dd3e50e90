//! The state of a run after so many of its moves, and its text: each session in the words of `trace:info/3`, and each
//! process.
//!
//! Depends on def_term, def_script, def_spec, def_node, def_outlook, def_session and def_run. Promises, as laws: the
//! state after N moves is that of the run by the first N picks of the journal, and later picks don't change it; what is
//! written of a session goes by its view, which no other session's commands change; the state that is written is the
//! one that the next pick is evaluated with, and its flags and match specifications are read back as those of the
//! session.
#![tactic(auto)]

ghost use Rattle.def_state.specs.Laws.{StateIsOfTheJournal, LaterPicksLeaveTheState, LastStateIsOfAllPicks};
ghost use Rattle.def_state.specs.Laws.{SessionGoesByTheView, SessionIsIsolated, NextMessagesGoByTheState};
ghost use Rattle.def_state.specs.Laws.{FlagsAreReadBack, FunctionTermsAreTheSettings, OtherTermsAreTheSettings};
ghost use Rattle.def_state.specs.Laws.{TermsReadAsTheSettings};

/// The state after N moves is that of the run by the first N picks of the journal alone, whatever picks come later.
/// After as many moves as there are it is the state after all picks.
pub fn a_state_goes_by_the_journal()
    ensures journal { StateIsOfTheJournal }
    ensures later { LaterPicksLeaveTheState }
    ensures last { LastStateIsOfAllPicks }
{}

/// What is written of a session goes by its view. To strike another session's commands, and the picks that took
/// them, leaves it, where the run did not meet the limit.
pub fn a_session_is_written_by_its_view()
    ensures view { SessionGoesByTheView }
    ensures isolated { SessionIsIsolated }
{}

/// The state that is written of a session is the one that the next pick is evaluated with. Its flags are read back as
/// the flags of the session; the line of a function, of sends and of receives has what a call, a send and a receive are
/// evaluated with; and its term is read as that.
pub fn the_next_pick_goes_by_the_state()
    ensures messages { NextMessagesGoByTheState }
    ensures flags { FlagsAreReadBack }
    ensures functions { FunctionTermsAreTheSettings }
    ensures others { OtherTermsAreTheSettings }
    ensures terms { TermsReadAsTheSettings }
{}
