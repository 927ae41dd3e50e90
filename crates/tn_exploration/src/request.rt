// What is asked of all schedules of a program, and what was written.
use std::alloc::Global;
use tn_answers::{AnswerForm, SearchQuestion};
use tn_moves::Schedule;
use tn_run::RunRefusal;
use tn_search::ListingOrder;

/// The random runs that are made in place of a search.
#[derive(Clone, Copy, Debug, PartialEq, Eq)]
pub struct RandomRuns {
    /// How many.
    pub runs: usize,
    /// From which seed the numbers are that draw their picks.
    pub seed: u64,
}

/// What is asked of all schedules that begin with some picks.
#[derive(Clone, Copy)]
pub struct ExploreRequest<'a> {
    /// Which picks they begin with.
    pub schedule: Schedule<'a>,
    /// Which messages of a session are in an order.
    pub order: ListingOrder,
    /// The session that it is about, where it isn't about all.
    pub session: Option<&'a str>,
    /// The patterns or the trace that it is about.
    pub question: SearchQuestion<'a, Global>,
    /// How many states may be met before it ends.
    pub max_states: usize,
    /// Whether the search leaves out picks that others go before which are independent of all.
    pub reduces: bool,
    /// The random runs that are made in place of the search, where some are.
    pub random: Option<RandomRuns>,
    /// The form of what is written.
    pub form: AnswerForm,
}

/// What was written.
#[derive(Clone, Copy, Debug, PartialEq, Eq, Drop)]
pub enum ExploreOutcome {
    /// The listings of all schedules, the words for the patterns, or a run that shows the trace.
    Complete,
    /// What was found among so many states.
    Incomplete,
    /// The words for the patterns, one of which is refuted to be the demanded one; or that the trace is impossible.
    Unmet,
    /// Nothing: the control list creates no session of the name that is asked for.
    NoSession,
    /// What the refusal says.
    Refused(RunRefusal),
}
