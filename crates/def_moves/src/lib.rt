//! Directives, which say what should run, the picks that they make of a program, and the texts of moves that stand for
//! them.
//!
//! Depends on def_term, def_text, def_script and def_run. Promises, as laws: each pick that directives make moves, and
//! they are at most the limit's number; so many picks of one are those of them that move; until one is idle there are
//! picks of it alone, after which it is idle, or the limit is reached; after everybody no pick of a pass moves, or the
//! limit is reached; everybody alone is a round; the control list until it is idle is one pick 0 for each command; and
//! later directives change nothing in the picks of those before them. A text of moves stands for one list of
//! directives, or for none, and then it has one first piece that stands for no directive.
#![tactic(auto)]

ghost use Rattle.def_moves.specs.Laws.{DirectivesMove, DirectivesAreBounded, DirectivesGrow, TimesTakesSoMany};
ghost use Rattle.def_moves.specs.Laws.{UntilIdleTakesOne, UntilIdleStopsThere, EverybodyRests, EverybodyIsARound};
ghost use Rattle.def_moves.specs.Laws.{ControlTakesEachCommand};
ghost use Rattle.def_moves.specs.TextLaws.{MovesAreOne, PicksOfMovesAreOne, MovesFaultIsAlone, MovesFaultIsOne};

/// Each pick that directives make moves, they are at most the limit's number, and later directives only add to them.
pub fn directives_make_moves()
    ensures moves { DirectivesMove }
    ensures bounded { DirectivesAreBounded }
    ensures grows { DirectivesGrow }
{}

/// So many picks of one are those of them that move, up to the limit.
pub fn times_takes_so_many()
    ensures { TimesTakesSoMany }
{}

/// Until one is idle there are picks of it alone, and then it is idle, or the limit is reached. Of the control list
/// they are one for each command.
pub fn until_idle_stops_where_it_is_idle()
    ensures alone { UntilIdleTakesOne }
    ensures idle { UntilIdleStopsThere }
    ensures control { ControlTakesEachCommand }
{}

/// After everybody no pick of a pass moves, or the limit is reached; everybody alone is a round.
pub fn everybody_goes_on_until_nothing_moves()
    ensures rests { EverybodyRests }
    ensures round { EverybodyIsARound }
{}

/// A text of moves stands for one list of directives at most; and for none where a piece of it stands for no directive,
/// the first of which is at one place.
pub fn a_text_of_moves_has_one_reading()
    ensures one { MovesAreOne }
    ensures picks { PicksOfMovesAreOne }
    ensures alone { MovesFaultIsAlone }
    ensures place { MovesFaultIsOne }
{}
