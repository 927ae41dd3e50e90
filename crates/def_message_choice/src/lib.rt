//! Which moves of a run are explained where a trace message is asked for: those at which a session sends one that
//! matches a pattern, those with an event whose message would match, where a session sends none, or the one at which a
//! session sends its message of a number.
//!
//! Depends on the sessions and runs of the model, on the account of a run, and on patterns of messages. Promises, as
//! laws, that what is computed of a move is whether it is chosen; that the message that would match is the one that a
//! session sends by its trace flag alone; that a move is chosen by a message of a session exactly where its listing has
//! one that matches; that the account is empty exactly where no move is chosen; and that the move of the message of a
//! number is the one by which the session's listing comes to have it, and is there exactly where the listing has so
//! many. Worked rows compute the accounts of small runs. There is no code.
#![tactic(auto)]

ghost use Rattle.def_message_choice.specs.Laws.{ChoiceIsComputed, PlainMessageHasNoEffects, PlainMessageIsSent};
ghost use Rattle.def_message_choice.specs.Laws.{AbsentSendsNone, DestroyedSendsNone, ListingHasTheChosen};
ghost use Rattle.def_message_choice.specs.Laws.{NoAccountWhereNoneIsChosen, MoveOfMessageIsComputed};
ghost use Rattle.def_message_choice.specs.Laws.{NoMoveWhereNoMessage, NoAccountWhereNoMessage};

/// What is computed of a move is whether one of the sessions that are asked about chooses one of its events.
pub fn a_move_is_chosen_by_a_session()
    ensures { ChoiceIsComputed }
{}

/// The message that would match is the one of an event with no effects. A session that is there, traces the event
/// without a specification and isn't silent sends it, with the arity where its flag is set. One that isn't there, or
/// was destroyed, sends none.
pub fn a_plain_message_is_sent_by_a_flag()
    ensures no_effects { PlainMessageHasNoEffects }
    ensures sent { PlainMessageIsSent }
    ensures absent { AbsentSendsNone }
    ensures destroyed { DestroyedSendsNone }
{}

/// A move is chosen by a message of a session exactly where a message of its listing matches.
pub fn a_listing_has_the_chosen()
    ensures { ListingHasTheChosen }
{}

/// The account of the chosen moves is empty exactly where no move is chosen.
pub fn an_account_has_the_chosen()
    ensures { NoAccountWhereNoneIsChosen }
{}

/// What is computed is the move at which a session sends its message of a number: the one by which its listing comes to
/// have it. There is none exactly where the listing has no message of this number, and there the account is empty.
pub fn a_message_has_its_move()
    ensures computed { MoveOfMessageIsComputed }
    ensures none { NoMoveWhereNoMessage }
    ensures account { NoAccountWhereNoMessage }
{}
