//! What the trace sessions of a running node report of a run, beside those of the model.
//!
//! Depends on the sessions and runs of the model, and on what a node is known to do otherwise (`def_explain`).
//! Promises, as laws, that the sessions here are those of the run; that the lines between a session here and on a node
//! are all that is here alone, and then all that is there alone, after a common beginning; that a session that isn't
//! determined has no later line; that a process has an exit signal until its exit, whose reason has the list of calls
//! where it is that of an error; that a frame has a mark from its call to its end, unless the call is silent; that a
//! session of a node has the messages of the one here where the event has no rule of its own on a node; that the lines
//! of one session are those of the run; and that the note of a run counts the moves that have a line. Worked rows
//! compute the lines of small runs, which are those that OTP 27.3.4 has. There is no code.
#![tactic(auto)]

ghost use Rattle.def_running_node.specs.Laws.{LinesAreBetween, NoLineWhereSame, SameLinesSameNode};
ghost use Rattle.def_running_node.specs.Laws.{OpeningHasOneLine, EventHasLinesBetween, OpeningIsNotDetermined};
ghost use Rattle.def_running_node.specs.Laws.{NotDeterminedInMove, NotDeterminedInMoves};
ghost use Rattle.def_running_node.specs.Laws.{NoLaterLineInMove, NoLaterLineInMoves};
ghost use Rattle.def_running_node.specs.Laws.{CommandInOpenRun, OwnLinkInOpenRun, ErrorThatGoesOn};
ghost use Rattle.def_running_node.specs.Laws.{RunIsNotDeterminedAgain, NoDifferenceInLaterMoves};
ghost use Rattle.def_running_node.specs.Laws.{CommandHasLinesBetween, OtherCommandHasNoLine, OwnLinkHasItsLine};
ghost use Rattle.def_running_node.specs.Laws.{OwnUnlinkHasItsLine, OptionsCountOnce, NoArityMatchesNone};
ghost use Rattle.def_running_node.specs.Laws.{AliveGoesByEvents, AbnormalExitGivesSignal, NormalExitGivesNone};
ghost use Rattle.def_running_node.specs.Laws.{NoprocGivesSignal, FirstSignalCounts, NoSignalAfterExit};
ghost use Rattle.def_running_node.specs.Laws.{OtherMoveIsNotDetermined, MoveWithSignalChangesNothing};
ghost use Rattle.def_running_node.specs.Laws.{ErrorExitHasCalls, SignalExitHasCalls, ReportedExitHasNoMessage};
ghost use Rattle.def_running_node.specs.Laws.{NoprocIsReported, LostLinkHasNoMessage};
ghost use Rattle.def_running_node.specs.Laws.{SilentCallHasNoMark, CallHasItsMark, NoMarkWithoutCall};
ghost use Rattle.def_running_node.specs.Laws.{EndedFrameHasNoMark, OtherFrameHasItsMark, FrameHasOneMark};
ghost use Rattle.def_running_node.specs.Laws.{NewestFrameIsFirst, ReturnsMarkHasNoException};
ghost use Rattle.def_running_node.specs.Laws.{OtherProcessHasNoException};
ghost use Rattle.def_running_node.specs.Laws.{SameSessionThere, ChildHasNoOtherFlag, NewFlagsStay, SameMessageThere};
ghost use Rattle.def_running_node.specs.Laws.{SameMarksThere};
ghost use Rattle.def_running_node.specs.Laws.{SessionsHereAtStart, SessionsHereGoByHistory};
ghost use Rattle.def_running_node.specs.Laws.{SessionThereGoesByEvents, SessionThereGoesByCommands};
ghost use Rattle.def_running_node.specs.Laws.{EachMoveHasLines, SessionAloneHasItsLines};
ghost use Rattle.def_running_node.specs.Laws.{NoteWhereSomeLine, NoteCountsMoves, NoAccountWhereNoLine};

/// Between the lines of a session here and those of a node are, after those with which both begin, all that are here
/// alone, and then all that are there alone: what is computed, and nothing else. There is none exactly where both are
/// the same; and what a node has follows from what is here and from the lines between.
pub fn lines_are_between_both()
    ensures exactly { LinesAreBetween }
    ensures none { NoLineWhereSame }
    ensures there { SameLinesSameNode }
{}

/// Of an event after which what a session has on a node isn't determined, it has one line that says so, and of any
/// other the lines between its messages here and there. A session that isn't determined stays so, and has no line of
/// any later event, command or move. Where the run isn't determined, as after an error at which the process goes on
/// there, a session has that one line, of the first event, command or own link that it has from then on, and no other.
pub fn nothing_follows_what_is_not_determined()
    ensures one { OpeningHasOneLine }
    ensures between { EventHasLinesBetween }
    ensures after_event { OpeningIsNotDetermined }
    ensures in_move { NotDeterminedInMove }
    ensures in_moves { NotDeterminedInMoves }
    ensures no_line { NoLaterLineInMove }
    ensures no_line_of_moves { NoLaterLineInMoves }
    ensures after_command { CommandInOpenRun }
    ensures after_own_link { OwnLinkInOpenRun }
    ensures error { ErrorThatGoesOn }
    ensures run { RunIsNotDeterminedAgain }
    ensures one_of_run { NoDifferenceInLaterMoves }
{}

/// A session has of a command of its own the lines between its replies here and there, and of another's none; of a
/// link of a process with itself, or an unlink, which has no event here, it has the message of such an event there. A
/// function command may have an option several times there, and one for an arity past 255 sets nothing and replies 0.
pub fn a_command_has_the_lines_of_its_reply()
    ensures own { CommandHasLinesBetween }
    ensures other { OtherCommandHasNoLine }
    ensures own_link { OwnLinkHasItsLine }
    ensures own_unlink { OwnUnlinkHasItsLine }
    ensures options { OptionsCountOnce }
    ensures no_arity { NoArityMatchesNone }
{}

/// A process gets an exit signal where it loses its link by an exit whose reason isn't `normal`, or where it links to
/// a process that isn't alive. The first counts, until its own exit; until then a move of a process that has none
/// isn't determined, and any other move changes nothing of that. The processes that are alive are those that were
/// started, until they exit.
pub fn a_signal_is_there_until_the_exit()
    ensures alive { AliveGoesByEvents }
    ensures abnormal { AbnormalExitGivesSignal }
    ensures normal { NormalExitGivesNone }
    ensures noproc { NoprocGivesSignal }
    ensures first { FirstSignalCounts }
    ensures exit { NoSignalAfterExit }
    ensures other_move { OtherMoveIsNotDetermined }
    ensures own_move { MoveWithSignalChangesNothing }
{}

/// The reason of an exit by an error has the list of calls on a node, after the exceptions of the frames that the
/// error leaves; by a signal of an error too. A link to a process that isn't alive has both after its message, and the
/// exit then has none again. A link that is lost by an exit has none.
pub fn an_error_has_its_calls_in_the_exit()
    ensures error { ErrorExitHasCalls }
    ensures signal { SignalExitHasCalls }
    ensures once { ReportedExitHasNoMessage }
    ensures noproc { NoprocIsReported }
    ensures lost_link { LostLinkHasNoMessage }
{}

/// A call of a silent process gets no mark in a session of a node, and any other the mark that the session has of it.
/// A frame has its mark until it ends, by a return, by an exception or by the exit of its process; it gets one by its
/// call alone, and has one at most. An error leaves the newest frame first, and has a message of each that is marked
/// for exceptions.
pub fn a_mark_is_there_from_call_to_end()
    ensures silent { SilentCallHasNoMark }
    ensures call { CallHasItsMark }
    ensures no_other { NoMarkWithoutCall }
    ensures end { EndedFrameHasNoMark }
    ensures until_then { OtherFrameHasItsMark }
    ensures one { FrameHasOneMark }
    ensures newest { NewestFrameIsFirst }
    ensures returns { ReturnsMarkHasNoException }
    ensures other_process { OtherProcessHasNoException }
{}

/// A session of a node makes of an event what one here makes of it, unless the event is of a child whose parent hands
/// on flags: such a child has no flag that its parent hadn't. Where the event has no rule of its own on a node, the
/// session has the message there that it has here; and where no call is silent, its frames are marked as here.
pub fn a_session_there_is_as_here()
    ensures session { SameSessionThere }
    ensures child { ChildHasNoOtherFlag }
    ensures new_flags { NewFlagsStay }
    ensures message { SameMessageThere }
    ensures marks { SameMarksThere }
{}

/// The sessions here are those of the run, before any move and after each event and command of its history; and those
/// there are what a session of a node makes of the same events and commands.
pub fn sessions_go_by_the_history()
    ensures start { SessionsHereAtStart }
    ensures here { SessionsHereGoByHistory }
    ensures there_by_events { SessionThereGoesByEvents }
    ensures there_by_commands { SessionThereGoesByCommands }
{}

/// Each move of a run has its lines, or none; those of one session alone are its lines among those of all sessions.
pub fn each_move_has_its_lines()
    ensures each { EachMoveHasLines }
    ensures alone { SessionAloneHasItsLines }
{}

/// A run has a note exactly where a command can lead to a move that a node does otherwise, and a move has a line; it
/// counts the moves with a line, and all moves. The account of a node is empty exactly where no move has a line.
pub fn a_note_counts_the_moves_with_a_line()
    ensures exactly { NoteWhereSomeLine }
    ensures counts { NoteCountsMoves }
    ensures account { NoAccountWhereNoLine }
{}
