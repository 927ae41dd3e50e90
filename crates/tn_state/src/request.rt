// What is asked of a state, and what is written of it.
use tn_moves::Schedule;
use tn_run::RunRefusal;

/// Which state of a run is asked for.
#[derive(Clone, Copy)]
pub struct StateQuestion<'a> {
    /// The session alone that is asked for; None for all of them.
    pub session: Option<&'a str>,
    /// After how many moves.
    pub move_number: u64,
}

/// What is asked of a run.
#[derive(Clone, Copy)]
pub struct StateRequest<'a> {
    /// Which picks it takes.
    pub schedule: Schedule<'a>,
    /// Which of its states.
    pub question: StateQuestion<'a>,
}

/// What was written.
#[derive(Clone, Copy, Debug, PartialEq, Eq, Drop)]
pub enum StateOutcome {
    /// The state of an accepted script's run.
    State,
    /// What the refusal says.
    Refused(RunRefusal),
    /// Nothing: the control list creates no session of the name that is asked for.
    NoSession,
    /// Nothing: the run has no move of the number that is asked for.
    NoMove,
}
