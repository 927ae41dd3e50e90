// The exploration that a request asks for.
ghost use Rattle.std.specs.Prelude.{IfErr, IfOk, map};
ghost use Rattle.std.specs.Process.{exit_status};
ghost use Rattle.tn_command.specs.Explorations.{IsExplorationStatus};
ghost use Rattle.tn_command.specs.Status.{IsStatus};
ghost use Rattle.tn_expectation.specs.Expectations.{words_of};
ghost use Rattle.tn_exploration.specs.Questions.{AddsQuestions};
ghost use Rattle.tn_message_pattern.specs.Questions.{demand_seen, pattern_question_seen};
ghost use Rattle.tn_request.specs.Explorations.{ArePatternsAsked, IsExplorationAsked, IsOptionFault, IsPatternsFault};

use crate::comparison::compare_words;
use crate::request::ExploreArgs;
use std::alloc::Global;
use std::process::ExitCode;
use std::rt::Files;
use tn_answers::SearchQuestion;
use tn_command::{BadValue, OutputForm, explore_script, refuse_value, report};
use tn_exploration::{ExploreRequest, QuestionsFault, add_questions};
use tn_memory::WithinMemory;
use tn_message_pattern::{Demand, PatternQuestion};
use tn_moves::Schedule;
use tn_notice::CommandFault;

/// What is asked of all schedules, which begin with the moves of the text.
pub fn exploration_of<'a, 'w: 'a>(
    words: &ExploreArgs<'w>,
    question: SearchQuestion<'a, Global>,
) -> ExploreRequest<'a>
    ensures { IsExplorationAsked words.now question.entry result }
{
    ExploreRequest {
        schedule: Schedule::Moves(words.before.as_bytes()),
        order: words.order,
        session: words.session,
        question,
        max_states: words.max_states as usize,
        reduces: words.reduces,
        random: words.random,
        form: words.form,
    }
}

/// The option with a value that is no pattern, and why it is none.
#[derive(Clone, Copy)]
pub struct PatternsFault<'a> {
    pub option: &'static str,
    pub fault: QuestionsFault<'a>,
}

/// Adds the patterns of an option.
fn add_patterns<'a>(
    alloc: Global,
    option: &'static str,
    demand: Demand,
    texts: &'a [&'a str],
    patterns: &mut Vec<PatternQuestion<Global>>,
) -> Result<(), PatternsFault<'a>>
    ensures added { IfOk result (λ _. AddsQuestions (demand_seen demand) (words_of texts.now)
        patterns.old.items patterns.new.items) }
    ensures refused { IfErr result (IsOptionFault option.now (words_of texts.now)) }
{
    match add_questions(alloc, texts, demand, patterns) {
        Ok(()) => Ok(()),
        Err(fault) => Err(PatternsFault { option, fault }),
    }
}

/// The patterns that the words ask about. An error is a text that spells none, or refused memory.
pub fn patterns_of<'a>(
    alloc: Global,
    words: &ExploreArgs<'a>,
) -> Result<Vec<PatternQuestion<Global>>, PatternsFault<'a>>
    ensures asked { IfOk result (λ v. ArePatternsAsked words.now (map pattern_question_seen v.items)) }
    ensures refused { IfErr result (IsPatternsFault words.now) }
{
    let mut patterns = Vec::new(alloc);
    add_patterns(
        alloc,
        "--shows <PATTERN>",
        Demand::Any,
        words.shows,
        &mut patterns,
    )?;
    add_patterns(
        alloc,
        "--always <PATTERN>",
        Demand::Always,
        words.always,
        &mut patterns,
    )?;
    add_patterns(
        alloc,
        "--never <PATTERN>",
        Demand::Never,
        words.never,
        &mut patterns,
    )?;
    add_patterns(
        alloc,
        "--sometimes <PATTERN>",
        Demand::Sometimes,
        words.sometimes,
        &mut patterns,
    )?;
    Ok(patterns)
}

/// Says why a value is no pattern.
pub(crate) fn refuse_pattern<R: Eprint + AllocGlobal>(
    rt: &R,
    refused: PatternsFault<'_>,
) -> ExitCode
    ensures { IsStatus (exit_status result) }
{
    match refused.fault {
        QuestionsFault::NoPattern { text, reason } => refuse_value(
            rt,
            BadValue {
                option: refused.option,
                text,
                reason,
            },
        ),
        QuestionsFault::OutOfMemory => report(rt, CommandFault::Memory),
    }
}

/// Explores all schedules for a question, whose answer has at most so many bytes and takes at most so much memory.
pub(crate) fn explore_within<R: Input + Files + Print + Eprint + AllocGlobal>(
    rt: &R,
    words: &ExploreArgs<'_>,
    question: SearchQuestion<'_, Global>,
    form: OutputForm,
) -> ExitCode
    ensures { IsExplorationStatus (exit_status result) }
{
    let heap = WithinMemory::of(rt.alloc(), form.memory);
    let request = exploration_of(words, question);
    explore_script(rt, &heap, words.script, &request, form.most)
}

/// Explores all schedules for the patterns that the words have, or for the listings.
fn explore_patterns<R: Input + Files + Print + Eprint + AllocGlobal>(
    rt: &R,
    words: &ExploreArgs<'_>,
    form: OutputForm,
) -> ExitCode
    ensures { IsExplorationStatus (exit_status result) }
{
    match patterns_of(rt.alloc(), words) {
        Ok(patterns) => {
            let question = SearchQuestion::Patterns(&patterns);
            explore_within(rt, words, question, form)
        }
        Err(refused) => refuse_pattern(rt, refused),
    }
}

/// Explores all schedules as the words say, with the trace that was read where they have one, and writes to standard
/// output.
pub(crate) fn explore_words<R: Input + Files + Print + Eprint + AllocGlobal>(
    rt: &R,
    words: &ExploreArgs<'_>,
    read: &[u8],
    form: OutputForm,
) -> ExitCode
    ensures { IsExplorationStatus (exit_status result) }
{
    match words.trace {
        Some(path) => compare_words(rt, words, path, read, form),
        None => explore_patterns(rt, words, form),
    }
}
