//! What a trace session is: its state, what it makes of each event of the node, and what each of its own
//! commands does and replies.
//!
//! Depends on def_term, def_script, def_node and def_spec. Promises, as laws: of the function commands
//! the newest that covers a function decides, and `false` removes; a message is its event's, reported by a
//! live session of a process that has the flag that the event needs; `trace` reads the flags that the
//! session has at that point; which mark a call gets, and that a return or an exception is reported by it; a
//! return or an exception ends its frame's mark, and an exit the process's flags and marks; a destroyed
//! session reports nothing, and nothing brings it back.
#![tactic(auto)]

ghost use Rattle.def_session.specs.Laws.{NewestSettingWins, FalseRemoves, NoSetting, FunctionCommandIsNewest};
ghost use Rattle.def_session.specs.Laws.{RefusedChangesNothing, OtherCommandsKeepSettings, EventsKeepSettings};
ghost use Rattle.def_session.specs.Laws.{MessageIsOfItsEvent, TraceReadsTheSession, ShortCallHasItsArity};
ghost use Rattle.def_session.specs.Laws.{PlainCallHasItsArguments};
ghost use Rattle.def_session.specs.Laws.{DestructionTakesAll, EventAfterDestruction, CommandAfterDestruction};
ghost use Rattle.def_session.specs.Laws.{ExceptionTraceMarks, ReturnTraceMarks, OtherEffectsMarkNothing, CallIsMarked};
ghost use Rattle.def_session.specs.Laws.{ExceptionIsTold, NoOtherException, ReturnIsTold, NoOtherReturn};
ghost use Rattle.def_session.specs.Laws.{DestroyedAgain, ReturnEndsTheMark, ReturnEndsNoOtherMark};
ghost use Rattle.def_session.specs.Laws.{RaiseEndsTheMark, RaiseEndsNoOtherMark};
ghost use Rattle.def_session.specs.Laws.{ExitEndsTheFlags, ExitEndsTheMarks, MarksOfOthersStay};
ghost use Rattle.def_session.specs.Laws.{ExitEndsTheLife, CreationMakesLive, CommandBeforeCreation};
ghost use Rattle.def_session.specs.Laws.{EventBeforeCreation, LifeGoesByEvents, EventKeepsThePhase};

/// The newest function command that has a function among its own decides its setting, whichever kind it
/// is: an older one never shows through, and `false` removes. An accepted command is the newest
/// (`trace:function/4`); one that is refused changes nothing, and no other command but a destruction, and
/// no event, changes which were accepted.
pub fn newest_setting_wins()
    ensures wins { NewestSettingWins }
    ensures removes { FalseRemoves }
    ensures none { NoSetting }
    ensures newest { FunctionCommandIsNewest }
    ensures unchanged { RefusedChangesNothing }
    ensures others { OtherCommandsKeepSettings }
    ensures events { EventsKeepSettings }
{}

/// A message is reported by a live session alone, of a process that has the flag that the event needs, and it
/// is that event's message (`trace:process/4`), plain or with the term that the effects give last as one
/// more element. A call's has {M,F,Arity} where the process has the flag `arity` after inheritance and the
/// effects, and else {M,F,Args}.
pub fn message_is_of_its_event()
    ensures message { MessageIsOfItsEvent }
    ensures short { ShortCallHasItsArity }
    ensures plain { PlainCallHasItsArguments }
{}

/// The flags that the action `trace` reads after some effects are those that the session has once they are
/// done.
pub fn trace_reads_the_session()
    ensures { TraceReadsTheSession }
{}

/// A destruction takes all settings away. Afterwards an event gives no message, a command changes
/// nothing, and a second destruction replies `false` (`trace:session_destroy/1`).
pub fn nothing_follows_destruction()
    ensures destruction { DestructionTakesAll }
    ensures event { EventAfterDestruction }
    ensures command { CommandAfterDestruction }
    ensures again { DestroyedAgain }
{}

/// A call whose effects have `exception_trace` is marked for exceptions, and one whose effects have
/// `return_trace` alone for returns. An exception that leaves a frame is reported where that is marked for
/// exceptions, and a return where it is marked at all, with the flag `call` and without `silent`.
pub fn marks_tell_returns_and_exceptions()
    ensures exceptions { ExceptionTraceMarks }
    ensures returns { ReturnTraceMarks }
    ensures neither { OtherEffectsMarkNothing }
    ensures call { CallIsMarked }
    ensures raised { ExceptionIsTold }
    ensures no_other_raised { NoOtherException }
    ensures returned { ReturnIsTold }
    ensures no_other_returned { NoOtherReturn }
{}

/// After a return, or an exception that leaves it, a frame has no mark, and the process's other frames are
/// marked as before. After a process's exit its flags and marks are gone, and it isn't alive. No event
/// changes the marks of a process that it isn't about.
pub fn ends_take_marks_and_flags()
    ensures returned { ReturnEndsTheMark }
    ensures alone { ReturnEndsNoOtherMark }
    ensures raised { RaiseEndsTheMark }
    ensures raised_alone { RaiseEndsNoOtherMark }
    ensures flags { ExitEndsTheFlags }
    ensures marks { ExitEndsTheMarks }
    ensures others { MarksOfOthersStay }
    ensures life { ExitEndsTheLife }
{}

/// Before its creation a session reports nothing, and every command but the creation is refused, which
/// makes it live (`trace:session_create/3`).
pub fn nothing_precedes_creation()
    ensures creation { CreationMakesLive }
    ensures command { CommandBeforeCreation }
    ensures event { EventBeforeCreation }
{}

/// In each phase a session knows which processes are alive, and no event changes its phase.
pub fn a_session_knows_who_lives()
    ensures life { LifeGoesByEvents }
    ensures phase { EventKeepsThePhase }
{}
