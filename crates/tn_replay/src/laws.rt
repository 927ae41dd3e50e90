// What is promised of a run with its notes beyond its contract.
ghost use Rattle.tn_replay.specs.Notes.{ReplayIsRun};

/// What a run with its notes or without gives for the bytes of a script is what the run by its schedule gives: the same
/// outcome, and the same output.
pub fn a_run_with_a_note_is_a_run()
    ensures { ReplayIsRun }
{}
