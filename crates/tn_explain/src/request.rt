// What is asked of a run, and what is written of it.
use crate::filter::Filter;
use tn_message_choice::MessageFilter;
use tn_moves::Schedule;
use tn_run::RunRefusal;

/// What is asked of a run.
#[derive(Clone, Copy)]
pub struct ExplainRequest<'a> {
    /// Which picks it takes.
    pub schedule: Schedule<'a>,
    /// The session and the move that are asked for.
    pub filter: Filter<'a>,
    /// The message by which moves are asked for, where one is.
    pub message: Option<MessageFilter<'a>>,
}

/// What was written.
#[derive(Clone, Copy, Debug, PartialEq, Eq, Drop)]
pub enum ExplainOutcome {
    /// The account of an accepted script.
    Account,
    /// What the refusal says.
    Refused(RunRefusal),
    /// Nothing: the control list creates no session of the name that is asked for.
    NoSession,
    /// Nothing: the run has no move of the number that is asked for.
    NoMove,
    /// Nothing: of the moves that are asked for a running node is known to do none otherwise.
    NoDifference,
    /// Nothing: of the run's moves none is chosen by the message that is asked for, or has the message of the number.
    NoMessage,
}
