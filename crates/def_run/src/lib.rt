//! What a run of a program shows, what each session sees of it, its history, and the texts of its output.
//!
//! Depends on def_term, def_text, def_script, def_node and def_session. Promises, as laws: an idle pick
//! changes nothing and leaves no trace, and any other is its process's step or the next command; a round
//! goes on until a pass moves nothing or the limit is reached; a journal replays to itself and has at
//! most 65,536 moves; an event gives a session at most one message; a session's listing is a function of
//! its view, and the view isn't changed by another session's commands; nothing follows a destruction;
//! each move adds exactly its answer, so that the answers together are the listings; listings, replies and
//! answers are projections of one history; and of any bytes and any text of picks there is exactly one output.
#![tactic(auto)]

ghost use Rattle.def_run.specs.Laws.{IdleLeavesThePlace, IdleShowsNothing, IdleIsNotJournaled, IdleChangesNoOutput};
ghost use Rattle.def_run.specs.Laws.{JournalShowsTheSame, JournalMovesAgain, JournalGivesTheOutput, JournalIsBounded};
ghost use Rattle.def_run.specs.Laws.{RunsGrow, EventAddsOneAtMost, CommandAddsNone, ListingGoesByTheView};
ghost use Rattle.def_run.specs.Laws.{StrikingLeavesTheView, SessionsAreIsolated, DestroyedListingStays, DestroyedStays};
ghost use Rattle.def_run.specs.Laws.{MoveAddsItsAnswer, AnswerIsNumbered, AnswersAreListings, PickIsItsStep};
ghost use Rattle.def_run.specs.Laws.{PickTakesACommand, FullJournalStays, PickIsNext, RoundMoves, RoundIsShort};
ghost use Rattle.def_run.specs.Laws.{RoundIsInOrder, RoundRests, PicksAreOne, OutputIsOne, RoundOutputIsOne};
ghost use Rattle.def_run.specs.HistoryLaws.{HistoryShowsTheEvents, HistoryHasTheMoves, HistoryIsNumbered};
ghost use Rattle.def_run.specs.HistoryLaws.{HistoryGoesByTheViews, HistoryHasTheListing, HistoryHasTheReplies};
ghost use Rattle.def_run.specs.HistoryLaws.{HistoryHasTheAnswer, HistoryHasTheAnswers};

/// A pick that moves nothing changes nothing. Put anywhere among the picks it leaves no trace in what is
/// shown, in the journal or in the output.
pub fn idle_picks_leave_no_trace()
    ensures place { IdleLeavesThePlace }
    ensures shown { IdleShowsNothing }
    ensures moved { IdleIsNotJournaled }
    ensures output { IdleChangesNoOutput }
{}

/// The picks that moved, taken again, all move and show the same; at most 65,536 picks move; and later
/// picks only add to the journal.
pub fn a_journal_replays()
    ensures shown { JournalShowsTheSame }
    ensures moved { JournalMovesAgain }
    ensures output { JournalGivesTheOutput }
    ensures bounded { JournalIsBounded }
    ensures grows { RunsGrow }
{}

/// Each event adds at most one message to those of a session, and a command none.
pub fn an_event_gives_one_message_at_most()
    ensures event { EventAddsOneAtMost }
    ensures command { CommandAddsNone }
{}

/// A listing is a function of the session's view. To strike another session's commands, and the picks
/// that took them, leaves the view and so the listing, where the run did not meet the limit.
pub fn sessions_are_isolated()
    ensures view { ListingGoesByTheView }
    ensures struck { StrikingLeavesTheView }
    ensures isolated { SessionsAreIsolated }
{}

/// A destroyed session's messages stay as they are, whatever follows, and it stays destroyed.
pub fn nothing_follows_destruction()
    ensures listing { DestroyedListingStays }
    ensures stays { DestroyedStays }
{}

/// Each move adds to each listing exactly its answer, numbered on; the answers of all moves are the
/// listings.
pub fn answers_are_listings()
    ensures adds { MoveAddsItsAnswer }
    ensures numbered { AnswerIsNumbered }
    ensures all { AnswersAreListings }
{}

/// The history of a run has its moves, numbered from 1, and its events and commands in their order; at each
/// of them the state of each session is that of the session's own view. The listing of each session, the
/// replies, and what each move adds are projections of it.
pub fn listings_are_in_the_history()
    ensures events { HistoryShowsTheEvents }
    ensures moves { HistoryHasTheMoves }
    ensures numbers { HistoryIsNumbered }
    ensures states { HistoryGoesByTheViews }
    ensures listing { HistoryHasTheListing }
    ensures replies { HistoryHasTheReplies }
    ensures answer { HistoryHasTheAnswer }
    ensures answers { HistoryHasTheAnswers }
{}

/// While fewer than 65,536 picks have moved, a pick of a process moves exactly where the process does, and
/// shows the events of its step; a pick 0 takes the next command: it is what the node gives for the pick.
/// After that every pick is passed over.
pub fn a_pick_is_a_step()
    ensures step { PickIsItsStep }
    ensures command { PickTakesACommand }
    ensures full { FullJournalStays }
    ensures node { PickIsNext }
{}

/// A round is the first of the picks 0, 100, 101, .., 163 again and again that move, at most the limit's
/// number of them; where there are fewer, one more pass moves nothing.
pub fn a_round_goes_on_until_nothing_moves()
    ensures moves { RoundMoves }
    ensures short { RoundIsShort }
    ensures in_order { RoundIsInOrder }
    ensures rests { RoundRests }
{}

/// A text spells one list of picks or none, and of any bytes and any text of picks, or any limit of a round,
/// there is exactly one output: an accepted script's, or the line of a refusal.
pub fn every_run_has_one_output()
    ensures picks { PicksAreOne }
    ensures output { OutputIsOne }
    ensures round { RoundOutputIsOne }
{}
