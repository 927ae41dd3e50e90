// What the command line asks for.
ghost use Rattle.std.specs.Prelude.{◌≡◌, None};

use tn_answers::AnswerForm;
use tn_command::Source;
use tn_explain::Filter;
use tn_exploration::RandomRuns;
use tn_message_choice::MessageFilter;
use tn_picture::PictureFormat;
use tn_search::ListingOrder;
use tn_spec::Dialect;
use tn_state::StateQuestion;

/// Where the text of picks or of moves is.
#[derive(Clone, Copy)]
pub enum PicksSource<'a> {
    /// The text of picks is given.
    Text(&'a str),
    /// It is in a file, or is standard input.
    In(Source<'a>),
    /// The text of moves is given.
    Moves(&'a str),
    /// It is in a file, or is standard input.
    MovesIn(Source<'a>),
}

/// Which run is explained or drawn, or has a state that is asked for.
#[derive(Clone, Copy)]
pub enum RunSource<'a> {
    /// The run by picks.
    ByPicks(PicksSource<'a>),
    /// The round in which so many picks may move.
    ByRound {
        limit: u32,
        /// Whether all commands of the control list are taken before it.
        control_first: bool,
    },
}

/// What a trial is of, in the words of `spec`.
#[derive(Clone, Copy)]
pub struct SpecTestArgs<'a> {
    pub dialect: Dialect,
    /// The lists, one after another.
    pub lists: &'a [&'a str],
    pub self_pid: u32,
    pub caller: Option<&'a str>,
    /// The specification, where it is neither in a file nor standard input.
    pub specification: Option<&'a str>,
    /// The file that has it.
    pub file: Option<&'a str>,
    /// Whether it is a fun, whose specification is tested.
    pub fun: bool,
}

/// The listing that an output must have, in the words of the command line.
#[derive(Clone, Copy)]
pub struct SessionArgs<'a> {
    /// The session's name.
    pub name: &'a str,
    /// Where its listing is.
    pub source: Source<'a>,
}

/// What is asked of a fun, in the words of `fun`.
#[derive(Clone, Copy)]
pub struct FunArgs<'a> {
    pub dialect: Dialect,
    /// Whether the text is a specification, whose fun is asked for.
    pub pretty: bool,
    /// The text, where it isn't standard input.
    pub text: Option<&'a str>,
}

/// What is asked of all schedules of a script, in the words of `explore` and of `compare`.
#[derive(Clone, Copy)]
pub struct ExploreArgs<'a> {
    pub script: Source<'a>,
    /// The text of the moves with which they begin.
    pub before: &'a str,
    /// Which messages of a session are in an order.
    pub order: ListingOrder,
    /// The session that it is about, where it isn't about all.
    pub session: Option<&'a str>,
    /// The patterns that may have any word.
    pub shows: &'a [&'a str],
    /// Those that must have the word `always`.
    pub always: &'a [&'a str],
    /// Those that must have the word `never`.
    pub never: &'a [&'a str],
    /// Those that must have the word `sometimes`.
    pub sometimes: &'a [&'a str],
    /// The path of the file with the trace that it is about, where it is about one.
    pub trace: Option<&'a str>,
    /// Whether a run may have more messages than the trace.
    pub goes_on: bool,
    /// How many states may be met before it ends.
    pub max_states: u32,
    /// Whether the search leaves out picks that others go before which are independent of all.
    pub reduces: bool,
    /// The random runs that are made in place of a search, where some are.
    pub random: Option<RandomRuns>,
    /// The form of the answer.
    pub form: AnswerForm,
}

/// The message by which moves are chosen, in the words of `explain`.
#[derive(Clone, Copy)]
pub struct MessageArgs<'a> {
    /// The text of the pattern that it matches.
    pub pattern: &'a str,
    /// Whether the moves are asked for at which it isn't sent.
    pub is_missing: bool,
}

/// What an output must be, in the words of the command line.
#[derive(Clone, Copy)]
pub struct ExpectationArgs<'a> {
    /// Where the bytes are that it must be.
    pub output: Option<Source<'a>>,
    /// The listing that it must have.
    pub session: Option<SessionArgs<'a>>,
    /// The lines that it must have.
    pub lines: &'a [&'a str],
    /// The lines that it must not have.
    pub no_lines: &'a [&'a str],
    /// Whether each command must be done.
    pub strict: bool,
}

/// What an output must be where nothing is said of it.
const ANY_OUTPUT: ExpectationArgs<'static> = ExpectationArgs {
    output: None,
    session: None,
    lines: &[],
    no_lines: &[],
    strict: false,
};

/// A run by a schedule that the command line asks for.
#[derive(Clone, Copy)]
pub enum RunRequest<'a> {
    /// A run by picks.
    Replay {
        script: Source<'a>,
        picks: PicksSource<'a>,
        /// Whether no notes are printed on standard error.
        quiet: bool,
        expectation: ExpectationArgs<'a>,
    },
    /// An explanation of a run.
    Explain {
        script: Source<'a>,
        run: RunSource<'a>,
        filter: Filter<'a>,
        /// The message by which its moves are asked for, where one is.
        message: Option<MessageFilter<'a>>,
        expectation: ExpectationArgs<'a>,
    },
    /// The state of a run after a move.
    State {
        script: Source<'a>,
        run: RunSource<'a>,
        question: StateQuestion<'a>,
        expectation: ExpectationArgs<'a>,
    },
    /// A picture of a run.
    Draw {
        script: Source<'a>,
        run: RunSource<'a>,
        format: PictureFormat,
        expectation: ExpectationArgs<'a>,
    },
    /// A round, in which so many picks may move.
    Round {
        script: Source<'a>,
        limit: u32,
        /// Whether all commands of the control list are taken before it.
        control_first: bool,
        /// Whether no notes are printed on standard error.
        quiet: bool,
        expectation: ExpectationArgs<'a>,
    },
}

/// An explanation of the moves of a run that are chosen by a message, in the words of `explain`.
#[derive(Clone, Copy)]
pub struct MessageRequest<'a> {
    pub script: Source<'a>,
    pub run: RunSource<'a>,
    pub filter: Filter<'a>,
    pub message: MessageArgs<'a>,
    pub expectation: ExpectationArgs<'a>,
}

/// A run by so many workers, of so many turns each, that the command line asks for.
#[derive(Clone, Copy)]
pub struct WorkersRequest<'a> {
    pub script: Source<'a>,
    pub count: u32,
    pub turns: u32,
    /// The seed by which turns give way to other workers.
    pub spread: Option<u64>,
    /// Whether no notes are printed on standard error.
    pub quiet: bool,
    pub expectation: ExpectationArgs<'a>,
}

/// What the command line asks for.
#[derive(Clone, Copy)]
pub enum Request<'a> {
    /// A run by a schedule: its output, an explanation, a state or a picture of it.
    Run(RunRequest<'a>),
    /// An explanation of the moves that are chosen by a message.
    Message(MessageRequest<'a>),
    /// A run by workers.
    Workers(WorkersRequest<'a>),
    /// A trial of a match specification.
    Spec(SpecTestArgs<'a>),
    /// The specification of a fun.
    Fun(FunArgs<'a>),
    /// The listings of all schedules.
    Explore(ExploreArgs<'a>),
}

/// A text that a request needs beside the script, and where it is.
#[derive(Clone, Copy)]
pub enum TextSource<'a> {
    Picks(Source<'a>),
    Moves(Source<'a>),
    /// A match specification, or a fun.
    Specification(Source<'a>),
    /// The trace messages that a node printed.
    Trace(Source<'a>),
}

impl<'a> PicksSource<'a> {
    ghost use Rattle.tn_request.specs.RequestParts.{picks_source_asked};

    /// The text of picks or of moves that is to be read, where it isn't given.
    fn text_source(&self) -> Option<TextSource<'a>>
        ensures { result ≡ picks_source_asked self.now }
    {
        match *self {
            PicksSource::Text(_) => None,
            PicksSource::In(source) => Some(TextSource::Picks(source)),
            PicksSource::Moves(_) => None,
            PicksSource::MovesIn(source) => Some(TextSource::Moves(source)),
        }
    }
}

impl<'a> RunSource<'a> {
    ghost use Rattle.tn_request.specs.RequestParts.{run_source_asked};

    /// The text of picks or of moves that is to be read, where there is one.
    fn text_source(&self) -> Option<TextSource<'a>>
        ensures { result ≡ run_source_asked self.now }
    {
        match *self {
            RunSource::ByPicks(picks) => picks.text_source(),
            RunSource::ByRound { .. } => None,
        }
    }
}

impl<'a> ExploreArgs<'a> {
    ghost use Rattle.tn_request.specs.RequestParts.{trace_source};

    /// The trace that is to be read, where there is one.
    fn text_source(&self) -> Option<TextSource<'a>>
        ensures { result ≡ trace_source self.now.trace }
    {
        let path = self.trace?;
        Some(TextSource::Trace(Source::File(path)))
    }
}

impl<'a> RunRequest<'a> {
    ghost use Rattle.tn_request.specs.RequestParts.{run_expectation, run_script, run_text_source};

    /// What the output must be.
    fn expectation(&self) -> ExpectationArgs<'a>
        ensures { result ≡ run_expectation self.now }
    {
        match *self {
            RunRequest::Replay { expectation, .. } => expectation,
            RunRequest::Explain { expectation, .. } => expectation,
            RunRequest::State { expectation, .. } => expectation,
            RunRequest::Draw { expectation, .. } => expectation,
            RunRequest::Round { expectation, .. } => expectation,
        }
    }

    /// Where the script is read from.
    pub(crate) fn script(&self) -> Source<'a>
        ensures { result ≡ run_script self.now }
    {
        match *self {
            RunRequest::Replay { script, .. } => script,
            RunRequest::Explain { script, .. } => script,
            RunRequest::State { script, .. } => script,
            RunRequest::Draw { script, .. } => script,
            RunRequest::Round { script, .. } => script,
        }
    }

    /// The text of picks or of moves that is to be read, where there is one.
    fn text_source(&self) -> Option<TextSource<'a>>
        ensures { result ≡ run_text_source self.now }
    {
        match *self {
            RunRequest::Replay { picks, .. } => picks.text_source(),
            RunRequest::Explain { run, .. } => run.text_source(),
            RunRequest::State { run, .. } => run.text_source(),
            RunRequest::Draw { run, .. } => run.text_source(),
            RunRequest::Round { .. } => None,
        }
    }
}

impl<'a> SpecTestArgs<'a> {
    ghost use Rattle.tn_request.specs.RequestParts.{spec_text_source};

    /// The text of the specification, where it is to be read.
    fn text_source(&self) -> Option<TextSource<'a>>
        ensures { result ≡ spec_text_source self.now.file self.now.specification }
    {
        if let Some(path) = self.file {
            return Some(TextSource::Specification(Source::File(path)));
        }
        match self.specification {
            None | Some("-") => Some(TextSource::Specification(Source::Input)),
            Some(_) => None,
        }
    }
}

impl<'a> FunArgs<'a> {
    ghost use Rattle.tn_request.specs.RequestParts.{spec_text_source};

    /// The text of the fun, where it is to be read.
    fn text_source(&self) -> Option<TextSource<'a>>
        ensures { result ≡ spec_text_source None self.now.text }
    {
        match self.text {
            None | Some("-") => Some(TextSource::Specification(Source::Input)),
            Some(_) => None,
        }
    }
}

impl<'a> Request<'a> {
    ghost use Rattle.tn_request.specs.RequestParts.{IsRequestExpectation, script_asked, text_source_asked};

    /// What the output must be; anything, of a trial, a fun or an exploration.
    pub fn expectation(&self) -> ExpectationArgs<'a>
        ensures { IsRequestExpectation self.now result }
    {
        match *self {
            Request::Run(run) => run.expectation(),
            Request::Message(message) => message.expectation,
            Request::Workers(workers) => workers.expectation,
            Request::Spec(_) | Request::Fun(_) | Request::Explore(_) => ANY_OUTPUT,
        }
    }

    /// Where the script is read from; a trial and a fun have none.
    pub fn script(&self) -> Option<Source<'a>>
        ensures { result ≡ script_asked self.now }
    {
        match *self {
            Request::Run(run) => Some(run.script()),
            Request::Message(message) => Some(message.script),
            Request::Workers(workers) => Some(workers.script),
            Request::Spec(_) | Request::Fun(_) => None,
            Request::Explore(exploration) => Some(exploration.script),
        }
    }

    /// The text that is to be read beside the script, where there is one.
    pub fn text_source(&self) -> Option<TextSource<'a>>
        ensures { result ≡ text_source_asked self.now }
    {
        match *self {
            Request::Run(run) => run.text_source(),
            Request::Message(message) => message.run.text_source(),
            Request::Workers(_) => None,
            Request::Spec(trial) => trial.text_source(),
            Request::Fun(fun) => fun.text_source(),
            Request::Explore(exploration) => exploration.text_source(),
        }
    }
}
