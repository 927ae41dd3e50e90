// What the command line asks for: a command, made of what was read of its words.
ghost use Rattle.std.specs.Prelude.{◌≡◌, [], OkIff, IfOk, IfErr, OnOk, IfSome, IfNone, ◌⊎◌, Some, true, false, codes};
ghost use Rattle.std.specs.Prelude.{unwrap_or};
ghost use Rattle.std.specs.Option.{is_some, option_map, option_map_or};
ghost use Rattle.tn_cli.specs.Requests.{argument, is_given, picture_format_named, dialect_named, IsBetween};
ghost use Rattle.tn_cli.specs.Requests.{number_given, IsNumberOrNone};
ghost use Rattle.tn_cli.specs.Requests.{NamesProcess, NamesNoProcess, ArePicksOf, IsSourceNamed, Asks, IsAskedBy};
ghost use Rattle.tn_cli.specs.Requests.{LacksLimit, LacksNumber, IsWithoutNumber, NamesNoCommand};
ghost use Rattle.tn_cli.specs.Requests.{IsRunOf, takes_control_first, first_moves, form_given, order_named};
ghost use Rattle.tn_cli.specs.Requests.{IsAskedOf, LacksMove, IsMessageAsked, IsNumber, message_digits, NumberLacks};
ghost use Rattle.tn_cli.specs.Requests.{has_only_digits, script_word, move_word, asks_otherwise, IsMoveAsked};
ghost use Rattle.tn_cli.specs.Requests.{IsWordNumber};
ghost use Rattle.tn_command.specs.Numbers.{IsPlainNumber};
ghost use Rattle.tn_cli.specs.Requests.{AreRandomRunsOf, LacksRandomNumber, listings_form_given, random_runs_given};
ghost use Rattle.tn_expectation.specs.Expectations.{words_of};
ghost use Rattle.tn_cli.specs.Requests.{IsExpectationOf, IsListingOf, IsSourceOrNone, texts_given};

use crate::value::{is_digits, process_number, session_name};
use clap::ArgMatches;
use tn_answers::AnswerForm;
use tn_command::{BadValue, Source, plain_number, source_of};
use tn_explain::Filter;
use tn_exploration::RandomRuns;
use tn_message_choice::MessageFilter;
use tn_picture::PictureFormat;
use tn_request::{
    ExpectationArgs, ExploreArgs, FunArgs, MessageArgs, MessageRequest, PicksSource, Request,
    RunRequest, RunSource, SessionArgs, SpecTestArgs, WorkersRequest,
};
use tn_search::ListingOrder;
use tn_spec::Dialect;
use tn_state::StateQuestion;

/// A text that is no number for an option.
pub(crate) fn not_number<'a>(option: &'static str, text: &'a str) -> BadValue<'a>
    ensures { (result.option ≡ option.entry) × (result.text ≡ text.entry) }
{
    BadValue {
        option,
        text,
        reason: "invalid digit found in string",
    }
}

/// The number of an option, within its bounds.
pub(crate) fn number<'a>(
    args: &ArgMatches<'a>,
    id: &str,
    option: &'static str,
    least: u32,
    most: u32,
) -> Result<u32, BadValue<'a>>
    ensures { OkIff result (IsBetween least most (argument args.now id.now)) (number_given (argument args.now id.now)) }
{
    let Some(text) = args.get_str(id) else {
        return Err(not_number(option, ""));
    };
    match plain_number(text) {
        Some(number) if number >= least && number <= most => Ok(number),
        _ => Err(not_number(option, text)),
    }
}

/// The number of an option that may be absent.
fn number_or_none<'a>(
    args: &ArgMatches<'a>,
    id: &str,
    option: &'static str,
) -> Result<Option<u64>, BadValue<'a>>
    ensures { IsNumberOrNone (argument args.now id.now) result }
{
    let Some(text) = args.get_str(id) else {
        return Ok(None);
    };
    match plain_number(text) {
        Some(number) => Ok(Some(number as u64)),
        None => Err(not_number(option, text)),
    }
}

/// The process that `spec` is asked for, by its number or its pid.
fn own_process<'a>(matches: &ArgMatches<'a>) -> Result<u32, BadValue<'a>>
    ensures given { IfOk result (NamesProcess (unwrap_or (argument matches.now (codes "me")) [])) }
    ensures refused { IfErr result (λ e. NamesNoProcess (unwrap_or (argument matches.now (codes "me")) [])) }
{
    let text = matches.get_str("me").unwrap_or("");
    match process_number(text) {
        Some(number) => Ok(number),
        None => Err(BadValue {
            option: "--me <N>",
            text,
            reason: "a number or a pid <0.N.0> is expected",
        }),
    }
}

/// Whether the flag of this name is given.
pub(crate) fn flag(matches: &ArgMatches<'_>, id: &str) -> bool
    ensures { result ≡ is_given matches.now id.now }
{
    matches!(matches.get_str(id), Some("true"))
}

/// Where the script of a subcommand is read from.
fn script<'a>(matches: &ArgMatches<'a>) -> Source<'a>
    ensures { IsSourceNamed (argument matches.now (codes "script")) result }
{
    source_of(matches.get_str("script"))
}

/// Where the picks or the moves of a subcommand are: in a file, where one is named, else in the words.
fn picks<'a>(matches: &ArgMatches<'a>) -> PicksSource<'a>
    ensures { ArePicksOf matches.now result }
{
    if let Some(file) = matches.get_str("picks-file") {
        return PicksSource::In(source_of(Some(file)));
    }
    if let Some(file) = matches.get_str("moves-file") {
        return PicksSource::MovesIn(source_of(Some(file)));
    }
    match matches.get_str("moves") {
        Some(text) => PicksSource::Moves(text),
        None => PicksSource::Text(matches.get_str("picks").unwrap_or("")),
    }
}

/// Whether all commands of the control list are taken before the rounds.
fn control_first(matches: &ArgMatches<'_>) -> bool
    ensures { result ≡ takes_control_first matches.now }
{
    matches!(matches.get_str("control"), Some("first"))
}

/// Which run is explained or drawn, or has a state that is asked for.
fn run_source<'a>(matches: &ArgMatches<'a>) -> Result<RunSource<'a>, BadValue<'a>>
    ensures run { IfOk result (IsRunOf matches.now) }
    ensures refused { IfErr result (λ e. LacksLimit matches.now) }
{
    if !flag(matches, "round") {
        return Ok(RunSource::ByPicks(picks(matches)));
    }
    let limit = number(matches, "limit", "--limit <N>", 1, 65536)?;
    Ok(RunSource::ByRound {
        limit,
        control_first: control_first(matches),
    })
}

/// What the specification of this event is for.
fn dialect_of(event: &str) -> Dialect
    ensures { result ≡ dialect_named event.now }
{
    match event {
        "send" => Dialect::Send,
        "receive" => Dialect::Recv,
        _ => Dialect::Call,
    }
}

/// The texts that the words give for this option, which may be given many times.
fn texts<'s, 'a: 's>(matches: &'s ArgMatches<'a>, id: &str) -> &'s [&'a str]
    ensures { words_of result.now ≡ texts_given matches.now id.now }
{
    matches.get_strs(id).unwrap_or_default()
}

/// The source that an option names, where it is given.
fn source<'a>(matches: &ArgMatches<'a>, id: &str) -> Option<Source<'a>>
    ensures { IsSourceOrNone (argument matches.now id.now) result }
{
    match matches.get_str(id) {
        Some(path) => Some(source_of(Some(path))),
        None => None,
    }
}

/// The listing that the output must have.
fn session_listing<'s, 'a: 's>(matches: &'s ArgMatches<'a>) -> Option<SessionArgs<'s>>
    ensures { IsListingOf (texts_given matches.now (codes "expect-session")) result }
{
    let words = texts(matches, "expect-session");
    if words.len() < 2 {
        return None;
    }
    Some(SessionArgs {
        name: session_name(words[0]),
        source: source_of(Some(words[1])),
    })
}

/// What the output must be.
fn expectation<'s, 'a: 's>(matches: &'s ArgMatches<'a>) -> ExpectationArgs<'s>
    ensures { IsExpectationOf matches.now result }
{
    ExpectationArgs {
        output: source(matches, "expect"),
        session: session_listing(matches),
        lines: texts(matches, "expect-line"),
        no_lines: texts(matches, "reject-line"),
        strict: flag(matches, "strict"),
    }
}

/// What `replay` asks for.
fn replay<'s, 'a: 's>(matches: &'s ArgMatches<'a>) -> Request<'s>
    ensures { Asks (codes "replay") matches.now result }
{
    Request::Run(RunRequest::Replay {
        script: script(matches),
        picks: picks(matches),
        quiet: flag(matches, "quiet"),
        expectation: expectation(matches),
    })
}

/// Whether a word is there and is the number of a move.
fn is_number_word(word: Option<&str>) -> bool
    ensures { result ≡ option_map_or has_only_digits (option_map (λ w. w.now) word.entry) false }
{
    match word {
        Some(word) => is_digits(word),
        None => false,
    }
}

/// The words of `explain` without a name: the one that names the script, and the one that gives the number of a move,
/// which may stand before the other.
fn plain_words<'a>(matches: &ArgMatches<'a>) -> (Option<&'a str>, Option<&'a str>)
    ensures script { option_map (λ w. w.now) result.0 ≡ script_word matches.now }
    ensures number { option_map (λ w. w.now) result.1 ≡ move_word matches.now }
{
    let first = matches.get_str("script");
    let second = matches.get_str("number");
    if is_number_word(first) {
        (second, first)
    } else {
        (first, second)
    }
}

/// Where the script of `explain` is read from.
fn explained_script<'a>(matches: &ArgMatches<'a>) -> Source<'a>
    ensures { IsSourceNamed (script_word matches.now) result }
{
    let (script, _) = plain_words(matches);
    source_of(script)
}

/// Whether an option says which moves are explained.
fn asks_otherwise(matches: &ArgMatches<'_>) -> bool
    ensures { result ≡ asks_otherwise matches.now }
{
    matches.get_str("move").is_some()
        || matches.get_str("message").is_some()
        || matches.get_str("why-not").is_some()
}

/// The number of the move that a word gives, which no option does beside it.
fn number_of_word<'a>(matches: &ArgMatches<'a>, word: &'a str) -> Result<Option<u64>, BadValue<'a>>
    ensures asks { IfOk result (IsWordNumber matches.now word.now) }
    ensures refused { IfErr result (λ e. (asks_otherwise matches.now ≡ true) ⊎ (¬ (IsPlainNumber word.now))) }
{
    let option = "[N]";
    if asks_otherwise(matches) {
        return Err(BadValue {
            option,
            text: word,
            reason: "N isn't given beside --move, --message or --why-not",
        });
    }
    match plain_number(word) {
        Some(number) => Ok(Some(number as u64)),
        None => Err(BadValue {
            option,
            text: word,
            reason: "a number below 4294967296 is expected",
        }),
    }
}

/// The number of the move that is asked for, by a word or by `--move`.
fn move_number<'a>(matches: &ArgMatches<'a>) -> Result<Option<u64>, BadValue<'a>>
    ensures asks { IfOk result (IsMoveAsked matches.now (move_word matches.now)) }
    ensures refused { IfErr result (λ e. LacksMove matches.now) }
{
    let (script, number) = plain_words(matches);
    if let Some(word) = number {
        if is_number_word(script) {
            return Err(BadValue {
                option: "[SCRIPT]",
                text: script.unwrap_or(""),
                reason: "N is given already; a file of this name is given with ./ before it, and picks are one word",
            });
        }
        return number_of_word(matches, word);
    }
    number_or_none(matches, "move", "--move <N>")
}

/// The session and the move that are asked for, and whether only the moves are that a node does otherwise.
fn filter<'a>(matches: &ArgMatches<'a>) -> Result<Filter<'a>, BadValue<'a>>
    ensures asks { IfOk result (IsAskedOf matches.now) }
    ensures refused { IfErr result (λ e. LacksMove matches.now) }
{
    let move_number = move_number(matches)?;
    Ok(Filter {
        session: matches.get_str("session").map(session_name),
        move_number,
        node: flag(matches, "node"),
    })
}

/// The digits of the number of the message that is asked for, where the text of `--message` is digits.
fn message_digits<'a>(matches: &ArgMatches<'a>) -> Option<&'a str>
    ensures { option_map (λ w. w.now) result ≡ message_digits (argument matches.now (codes "message")) }
{
    let text = matches.get_str("message")?;
    if is_digits(text) { Some(text) } else { None }
}

/// The number of the message that these digits ask for, of the session that is named.
fn message_number<'a>(matches: &ArgMatches<'a>, digits: &'a str) -> Result<u64, BadValue<'a>>
    ensures given { IfOk result (IsNumber digits.now) }
    ensures session { OnOk result (is_some (argument matches.now (codes "session")) ≡ true) }
    ensures refused { IfErr result (λ e. NumberLacks matches.now digits.now) }
{
    let option = "--message <PATTERN>";
    if matches.get_str("session").is_none() {
        return Err(BadValue {
            option,
            text: digits,
            reason: "a number is that of a message of a session, and --session <NAME> isn't given",
        });
    }
    match plain_number(digits) {
        Some(number) => Ok(number as u64),
        None => Err(BadValue {
            option,
            text: digits,
            reason: "a number below 4294967296 is expected",
        }),
    }
}

/// The message by which moves are chosen, where one is asked for.
fn message<'a>(matches: &ArgMatches<'a>) -> Option<MessageArgs<'a>>
    ensures { IsMessageAsked matches.now result }
{
    if let Some(pattern) = matches.get_str("message") {
        return Some(MessageArgs {
            pattern,
            is_missing: false,
        });
    }
    let pattern = matches.get_str("why-not")?;
    Some(MessageArgs {
        pattern,
        is_missing: true,
    })
}

/// What `explain` asks for.
fn explain<'s, 'a: 's>(matches: &'s ArgMatches<'a>) -> Result<Request<'s>, BadValue<'s>>
    ensures asks { IfOk result (Asks (codes "explain") matches.now) }
    ensures refused { IfErr result (λ e. LacksNumber (codes "explain") matches.now) }
{
    let filter = filter(matches)?;
    let run = run_source(matches)?;
    if let Some(digits) = message_digits(matches) {
        let number = message_number(matches, digits)?;
        return Ok(Request::Run(RunRequest::Explain {
            script: explained_script(matches),
            run,
            filter,
            message: Some(MessageFilter::Number(number)),
            expectation: expectation(matches),
        }));
    }
    let Some(message) = message(matches) else {
        return Ok(Request::Run(RunRequest::Explain {
            script: explained_script(matches),
            run,
            filter,
            message: None,
            expectation: expectation(matches),
        }));
    };
    Ok(Request::Message(MessageRequest {
        script: explained_script(matches),
        run,
        filter,
        message,
        expectation: expectation(matches),
    }))
}

/// What `state` asks for.
fn state<'s, 'a: 's>(matches: &'s ArgMatches<'a>) -> Result<Request<'s>, BadValue<'s>>
    ensures asks { IfOk result (Asks (codes "state") matches.now) }
    ensures refused { IfErr result (λ e. LacksNumber (codes "state") matches.now) }
{
    let move_number = number(matches, "at", "--at <N>", 0, 4294967295)?;
    let run = run_source(matches)?;
    Ok(Request::Run(RunRequest::State {
        script: script(matches),
        run,
        question: StateQuestion {
            session: matches.get_str("session").map(session_name),
            move_number: u64::from(move_number),
        },
        expectation: expectation(matches),
    }))
}

/// What a picture is written as.
fn format<'a>(matches: &ArgMatches<'a>) -> PictureFormat
    ensures { result ≡
        picture_format_named (is_given matches.now (codes "text")) (is_given matches.now (codes "json")) }
{
    if flag(matches, "text") {
        PictureFormat::Plain
    } else if flag(matches, "json") {
        PictureFormat::Json
    } else {
        PictureFormat::Svg
    }
}

/// What `draw` asks for.
fn draw<'s, 'a: 's>(matches: &'s ArgMatches<'a>) -> Result<Request<'s>, BadValue<'s>>
    ensures asks { IfOk result (Asks (codes "draw") matches.now) }
    ensures refused { IfErr result (λ e. LacksNumber (codes "draw") matches.now) }
{
    let run = run_source(matches)?;
    Ok(Request::Run(RunRequest::Draw {
        script: script(matches),
        run,
        format: format(matches),
        expectation: expectation(matches),
    }))
}

/// What `run` asks for: a round after the control list.
fn run<'s, 'a: 's>(matches: &'s ArgMatches<'a>) -> Result<Request<'s>, BadValue<'s>>
    ensures asks { IfOk result (Asks (codes "run") matches.now) }
    ensures refused { IfErr result (λ e. LacksNumber (codes "run") matches.now) }
{
    let limit = number(matches, "limit", "--limit <N>", 1, 65536)?;
    Ok(Request::Run(RunRequest::Round {
        script: script(matches),
        limit,
        control_first: true,
        quiet: flag(matches, "quiet"),
        expectation: expectation(matches),
    }))
}

/// What `round` asks for.
fn round<'s, 'a: 's>(matches: &'s ArgMatches<'a>) -> Result<Request<'s>, BadValue<'s>>
    ensures asks { IfOk result (Asks (codes "round") matches.now) }
    ensures refused { IfErr result (λ e. LacksNumber (codes "round") matches.now) }
{
    let limit = number(matches, "limit", "--limit <N>", 1, 65536)?;
    Ok(Request::Run(RunRequest::Round {
        script: script(matches),
        limit,
        control_first: control_first(matches),
        quiet: flag(matches, "quiet"),
        expectation: expectation(matches),
    }))
}

/// What `workers` asks for.
fn workers<'s, 'a: 's>(matches: &'s ArgMatches<'a>) -> Result<Request<'s>, BadValue<'s>>
    ensures asks { IfOk result (Asks (codes "workers") matches.now) }
    ensures refused { IfErr result (λ e. LacksNumber (codes "workers") matches.now) }
{
    let count = number(matches, "n", "--n <N>", 1, 16)?;
    let turns = number(matches, "turns", "--turns <T>", 1, 65536)?;
    let spread = number_or_none(matches, "spread", "--spread <SEED>")?;
    Ok(Request::Workers(WorkersRequest {
        script: script(matches),
        count,
        turns,
        spread,
        quiet: flag(matches, "quiet"),
        expectation: expectation(matches),
    }))
}

/// What `spec` asks for.
fn spec<'s, 'a: 's>(matches: &'s ArgMatches<'a>) -> Result<Request<'s>, BadValue<'s>>
    ensures asks { IfOk result (Asks (codes "spec") matches.now) }
    ensures refused { IfErr result (λ e. LacksNumber (codes "spec") matches.now) }
{
    let self_pid = own_process(matches)?;
    Ok(Request::Spec(SpecTestArgs {
        dialect: dialect_of(matches.get_str("for").unwrap_or("call")),
        lists: texts(matches, "list"),
        self_pid,
        caller: matches.get_str("caller"),
        specification: matches.get_str("specification"),
        file: matches.get_str("file"),
        fun: flag(matches, "fun"),
    }))
}

/// What `fun` asks for.
fn fun<'s, 'a: 's>(matches: &'s ArgMatches<'a>) -> Request<'s>
    ensures { Asks (codes "fun") matches.now result }
{
    Request::Fun(FunArgs {
        dialect: dialect_of(matches.get_str("for").unwrap_or("call")),
        pretty: flag(matches, "pretty"),
        text: matches.get_str("fun"),
    })
}

/// The text of the moves with which all schedules begin: all commands of the control list, or those that are given.
fn first_moves<'a>(matches: &ArgMatches<'a>) -> &'a str
    ensures { result.now ≡ first_moves matches.now }
{
    if control_first(matches) {
        "0!"
    } else {
        matches.get_str("after").unwrap_or("")
    }
}

/// Which messages of a session are in an order.
fn listing_order(order: &str) -> ListingOrder
    ensures { result ≡ order_named order.now }
{
    match order {
        "total" => ListingOrder::Total,
        _ => ListingOrder::ByProcess,
    }
}

/// The form of the answer of a comparison: JSON where `--json` is given.
fn answer_form<'a>(matches: &ArgMatches<'a>) -> AnswerForm
    ensures { result ≡ form_given (is_given matches.now (codes "json")) }
{
    if flag(matches, "json") {
        AnswerForm::Json
    } else {
        AnswerForm::Plain
    }
}

/// The form of the answer of an exploration: also the summary of its listings, where `--summary` is given.
fn listings_form<'a>(matches: &ArgMatches<'a>) -> AnswerForm
    ensures { result ≡ listings_form_given matches.now }
{
    if flag(matches, "summary") {
        AnswerForm::Summary
    } else {
        answer_form(matches)
    }
}

/// The random runs of a number and a seed, where there is a number.
fn random_runs(runs: Option<u64>, seed: Option<u64>) -> Option<RandomRuns>
    ensures { result ≡ random_runs_given runs seed }
{
    let runs = runs?;
    Some(RandomRuns {
        runs: runs as usize,
        seed: seed.unwrap_or(0),
    })
}

/// The random runs that `--random` and `--seed` ask for.
fn random<'a>(matches: &ArgMatches<'a>) -> Result<Option<RandomRuns>, BadValue<'a>>
    ensures asks { IfOk result (AreRandomRunsOf matches.now) }
    ensures refused { IfErr result (λ e. LacksRandomNumber matches.now) }
{
    let runs = number_or_none(matches, "random", "--random <N>")?;
    let seed = number_or_none(matches, "seed", "--seed <S>")?;
    Ok(random_runs(runs, seed))
}

/// What `explore` asks for.
fn exploration<'s, 'a: 's>(matches: &'s ArgMatches<'a>) -> Result<Request<'s>, BadValue<'s>>
    ensures asks { IfOk result (Asks (codes "explore") matches.now) }
    ensures refused { IfErr result (λ e. LacksNumber (codes "explore") matches.now) }
{
    let max_states = number(matches, "max-states", "--max-states <N>", 1, 4294967295)?;
    let random = random(matches)?;
    Ok(Request::Explore(ExploreArgs {
        script: script(matches),
        before: first_moves(matches),
        order: listing_order(matches.get_str("order").unwrap_or("process")),
        session: matches.get_str("session").map(session_name),
        shows: texts(matches, "shows"),
        always: texts(matches, "always"),
        never: texts(matches, "never"),
        sometimes: texts(matches, "sometimes"),
        trace: None,
        goes_on: false,
        max_states,
        reduces: flag(matches, "reduce"),
        random,
        form: listings_form(matches),
    }))
}

/// What `compare` asks for.
fn comparison<'s, 'a: 's>(matches: &'s ArgMatches<'a>) -> Result<Request<'s>, BadValue<'s>>
    ensures asks { IfOk result (Asks (codes "compare") matches.now) }
    ensures refused { IfErr result (λ e. LacksNumber (codes "compare") matches.now) }
{
    let max_states = number(matches, "max-states", "--max-states <N>", 1, 4294967295)?;
    Ok(Request::Explore(ExploreArgs {
        script: script(matches),
        before: first_moves(matches),
        order: listing_order(matches.get_str("order").unwrap_or("process")),
        session: matches.get_str("session").map(session_name),
        shows: &[],
        always: &[],
        never: &[],
        sometimes: &[],
        trace: matches.get_str("trace"),
        goes_on: flag(matches, "prefix"),
        max_states,
        reduces: false,
        random: None,
        form: answer_form(matches),
    }))
}

/// What the command line asks for, by the subcommand that it names; None where it names none.
pub fn request_of<'s, 'a: 's>(
    matches: &'s ArgMatches<'a>,
) -> Result<Option<Request<'s>>, BadValue<'s>>
    ensures asks { IfOk result (λ o. IfSome o (IsAskedBy matches.now)) }
    ensures none { IfOk result (λ o. IfNone o (NamesNoCommand matches.now)) }
    ensures refused { IfErr result (λ e. IsWithoutNumber matches.now) }
{
    match matches.subcommand() {
        Some(("run", given)) => Ok(Some(run(given)?)),
        Some(("replay", given)) => Ok(Some(replay(given))),
        Some(("explain", given)) => Ok(Some(explain(given)?)),
        Some(("state", given)) => Ok(Some(state(given)?)),
        Some(("draw", given)) => Ok(Some(draw(given)?)),
        Some(("round", given)) => Ok(Some(round(given)?)),
        Some(("workers", given)) => Ok(Some(workers(given)?)),
        Some(("spec", given)) => Ok(Some(spec(given)?)),
        Some(("fun", given)) => Ok(Some(fun(given))),
        Some(("explore", given)) => Ok(Some(exploration(given)?)),
        Some(("compare", given)) => Ok(Some(comparison(given)?)),
        _ => Ok(None),
    }
}
