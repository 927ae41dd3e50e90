//! Why a session reports nothing of an event, why a clause of a specification doesn't fire, why a command is refused,
//! what a running node does otherwise, and what the sessions make of a run, move by move.
//!
//! Depends on the match specifications of `def_spec` and their traps in `def_trap`, the sessions of `def_session` and
//! the runs of `def_run`.
//! Promises, as laws over the definitions: a session that is there has a cause exactly where it reports nothing of
//! an event, and a clause a reason exactly where it doesn't fire, one at most, and it is what is computed; a head
//! has one exactly where it doesn't match, and differs first at one place; a specification has one exactly where it
//! can't be read; a command that is refused, matches no function or has a trap has one, which says its reply; a
//! condition faults at a part of it exactly where it has no value; what a node is said to do otherwise is what is
//! defined of it, and it does no move otherwise where no command can lead to one; the messages that a session reports
//! in the account of a run are its listing's; and a command is written as a term that is read as it. There is no code.
#![tactic(auto)]

ghost use Rattle.def_explain.specs.Laws.{ReasonWhereNotFired, ReasonIsOne, ReasonIsComputed};
ghost use Rattle.def_explain.specs.Laws.{VerdictIsComputed, OutcomeIsByVerdicts};
ghost use Rattle.def_explain.specs.Laws.{FunctionNameIsRead, ActionNameIsRead, StopIsComputed};
ghost use Rattle.def_explain.specs.Laws.{HeadReasonWhereNotMatched, FaultWhereNoValue, ValueOfVariablesWithin};
ghost use Rattle.def_explain.specs.Laws.{MismatchWhereNotMatched, MismatchIsOne, MismatchIsComputed};
ghost use Rattle.def_explain.specs.Laws.{LinesTellTheMessage, LinesTellTheDifference};
ghost use Rattle.def_explain.specs.Laws.{LimitIsSaid, OnlyLimitsAreSaid};
ghost use Rattle.def_explain.specs.Laws.{BodyDifferenceIsComputed, EventDifferenceIsComputed};
ghost use Rattle.def_explain.specs.Laws.{OrderDifferenceIsComputed, StepDifferenceIsComputed};
ghost use Rattle.def_explain.specs.Laws.{LogicDifferenceIsComputed, CommandDifferenceIsComputed};
ghost use Rattle.def_explain.specs.Laws.{ListDifferenceIsComputed};
ghost use Rattle.def_explain.specs.Laws.{CauseWhereNothingTold, CauseIsOne, CauseIsComputed};
ghost use Rattle.def_explain.specs.RunLaws.{AccountTellsTheListing, CommandTermIsRead};
ghost use Rattle.def_explain.specs.RunLaws.{MoveDifferenceIsComputed, NoCommandNoDifference};
ghost use Rattle.def_explain.specs.RemarkLaws.{RemarkIsOfReason, RemarkHasItsReply, MovesHaveTheRemarks};
ghost use Rattle.def_explain.specs.RemarkLaws.{NothingAfterCommands, NoReasonLineNoRemark, EmptyScriptIsGap};
ghost use Rattle.def_explain.specs.ReasonLaws.{SpecFaultHasReason, SpecReasonIsComputed, CommandReasonIsComputed};
ghost use Rattle.def_explain.specs.ReasonLaws.{ReplyIsOfReason, FaultHasReason, ZeroHasReason, RefusalChangesNothing};
ghost use Rattle.def_explain.specs.ReasonLaws.{NearestIsThere, SomeNearestWhereAlike};
ghost use Rattle.def_explain.specs.NearNames.{NearNamesAreNear};

/// A clause has a reason exactly where it doesn't fire, and one at most, which is what is computed.
pub fn a_clause_has_a_reason_or_fires()
    ensures exactly { ReasonWhereNotFired }
    ensures one { ReasonIsOne }
    ensures computed { ReasonIsComputed }
{}

/// A clause has one verdict, which is what is computed: why it doesn't fire, or with which binding it does and
/// what its body asks for. The outcome of a specification is that of the first clause that fires.
pub fn a_clause_has_one_verdict()
    ensures computed { VerdictIsComputed }
    ensures outcome { OutcomeIsByVerdicts }
{}

/// Where a list is no specification, the first element that is no clause is found.
pub fn a_reading_stops_at_a_clause()
    ensures { StopIsComputed }
{}

/// By the name that an explanation calls it by, a function is read as itself, and an action too.
pub fn a_name_is_read_as_what_it_names()
    ensures functions { FunctionNameIsRead }
    ensures actions { ActionNameIsRead }
{}

/// The variables that are said of a condition, with what they are bound to, are all that its value depends on.
pub fn a_value_is_of_its_variables()
    ensures { ValueOfVariablesWithin }
{}

/// A head has a reason exactly where it doesn't match.
pub fn a_head_has_a_reason_or_matches()
    ensures { HeadReasonWhereNotMatched }
{}

/// Where a pattern doesn't match a term, there is one first difference in the order of matching, which is what is
/// computed; and none where it matches.
pub fn a_pattern_differs_first_at_one_place()
    ensures exactly { MismatchWhereNotMatched }
    ensures one { MismatchIsOne }
    ensures computed { MismatchIsComputed }
{}

/// A condition faults at a part of it exactly where it has no value.
pub fn a_fault_is_where_no_value_is()
    ensures { FaultWhereNoValue }
{}

/// A session that is there has a cause exactly where it reports nothing of an event, and one at most, which is
/// what is computed.
pub fn a_session_has_a_cause_or_tells()
    ensures exactly { CauseWhereNothingTold }
    ensures one { CauseIsOne }
    ensures computed { CauseIsComputed }
{}

/// The messages among the lines of an event are the session's message of it.
pub fn lines_tell_the_message()
    ensures { LinesTellTheMessage }
{}

/// What a running node is known to do otherwise is what is computed: at a clause that fires, at an event without a
/// body, by the step at an event, and by a command.
pub fn a_difference_is_where_it_applies()
    ensures body { BodyDifferenceIsComputed }
    ensures order { OrderDifferenceIsComputed }
    ensures logic { LogicDifferenceIsComputed }
    ensures list { ListDifferenceIsComputed }
    ensures event { EventDifferenceIsComputed }
    ensures step { StepDifferenceIsComputed }
    ensures command { CommandDifferenceIsComputed }
{}

/// Among the lines of an event there is all that a running node does otherwise, and nothing else of a node.
pub fn lines_tell_the_difference()
    ensures { LinesTellTheDifference }
{}

/// The messages that a session reports in the account of a run are its listing's, in their order.
pub fn an_account_tells_the_listing()
    ensures { AccountTellsTheListing }
{}

/// A command is written as a term that is read as that command.
pub fn a_command_is_written_as_it_is_read()
    ensures { CommandTermIsRead }
{}

/// A running node is said to do a move otherwise exactly where it does so in what a session makes of it; and no move of
/// a run is such where no command can lead to one.
pub fn a_move_differs_by_a_command()
    ensures computed { MoveDifferenceIsComputed }
    ensures none { NoCommandNoDifference }
{}

/// A term has a reason why it is no match specification exactly where it isn't read as one, of the fault that is
/// answered; and it is what is computed.
pub fn a_fault_of_a_specification_has_a_reason()
    ensures exactly { SpecFaultHasReason }
    ensures computed { SpecReasonIsComputed }
{}

/// A command that replies a fault, or a function command that replies 0, has a reason, and so has one whose
/// specification has a trap; it is what is computed. A command with a reason has its reply, and one that is refused
/// changes nothing.
pub fn a_refusal_has_a_reason()
    ensures computed { CommandReasonIsComputed }
    ensures reply { ReplyIsOfReason }
    ensures fault { FaultHasReason }
    ensures zero { ZeroHasReason }
    ensures unchanged { RefusalChangesNothing }
{}

/// Where a step goes past a limit and ends a process of which the session reports the exits, the limit is said; and
/// nothing is said of a limit elsewhere.
pub fn a_limit_is_said_where_it_is_passed()
    ensures said { LimitIsSaid }
    ensures only { OnlyLimitsAreSaid }
{}

/// The function that was probably meant, where a function command matches none, is one of the script's with the module
/// or the name that the command asks for; and where there is such a function, one was probably meant.
pub fn a_nearest_function_is_there()
    ensures there { NearestIsThere }
    ensures some { SomeNearestWhereAlike }
{}

/// Names that are found to be near are alike but for one letter, or for two that have changed places.
pub fn near_names_are_near()
    ensures { NearNamesAreNear }
{}

/// A command of a run is remarked of exactly where it has a reason, and has the reply of that; the same is remarked by
/// the picks that moved, and up to the last command; and nothing where no line of the replies begins as one of a
/// command that isn't done, and no specification of the program's commands has a trap.
pub fn a_remark_has_a_reason()
    ensures exactly { RemarkIsOfReason }
    ensures reply { RemarkHasItsReply }
    ensures moves { MovesHaveTheRemarks }
    ensures later { NothingAfterCommands }
    ensures none { NoReasonLineNoRemark }
{}

/// A script has no forms exactly where its text is blanks and comments.
pub fn a_script_without_forms_is_a_gap()
    ensures { EmptyScriptIsGap }
{}
