// What is promised of runs, beside the contract of `run`.
ghost use Rattle.tn_run.specs.Laws.{RunIsAsDefined, MovesRunIsAsDefined, RoundIsAsDefined};
ghost use Rattle.tn_run.specs.Laws.{ControlFirstIsAsDefined, WorkersRunAsDefined, RestIsOfAllPicks};

/// What is written for any bytes and any text of picks or of moves, or any limit of a round, also of one after the
/// control list, is the one output that is defined for them; and what a node writes that workers ran, for the picks
/// of its journal.
pub fn a_run_is_as_defined()
    ensures picks { RunIsAsDefined }
    ensures moves { MovesRunIsAsDefined }
    ensures round { RoundIsAsDefined }
    ensures control_first { ControlFirstIsAsDefined }
    ensures workers { WorkersRunAsDefined }
{}

/// After a journal after which no pick of a pass moves, no pick moves at all.
pub fn a_rest_is_of_all_picks()
    ensures { RestIsOfAllPicks }
{}
