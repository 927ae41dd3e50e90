// The patterns that texts spell, with what is demanded of them.
ghost use Rattle.std.specs.Prelude.{◌≡◌, IfErr, IfOk, map};
ghost use Rattle.tn_exploration.specs.Questions.{AddsQuestion, AddsQuestions, IsQuestionFault, IsTextsFault};
ghost use Rattle.tn_exploration.specs.Questions.{no_term_words, IsPatternOf};
ghost use Rattle.tn_message_pattern.specs.Questions.{demand_seen};

use std::alloc::Allocator;
use tn_message_pattern::{Demand, MessagePattern, PatternQuestion, PatternReading, read_pattern};
use tn_text::TextFault;

/// Why texts aren't all patterns.
#[derive(Clone, Copy, Debug)]
pub enum QuestionsFault<'a> {
    /// This one is none, for this reason.
    NoPattern { text: &'a str, reason: &'static str },
    /// Memory was refused.
    OutOfMemory,
}

/// Why a text spells no term.
fn no_term_words(fault: TextFault) -> &'static str
    ensures { result.now ≡ no_term_words fault }
{
    match fault {
        TextFault::TooLong => "it has more than 1048576 bytes",
        TextFault::Token { .. } => "it spells no term: its variables are '_' and '$1', in quotes",
        TextFault::TooDeep { .. } => "it nests too deep",
        TextFault::TooLarge { .. } => "a part of it is past a limit",
        TextFault::OutOfMemory => "out of memory",
    }
}

/// The pattern that a text spells.
///
/// # Errors
///
/// QuestionsFault where it spells none, or memory was refused.
pub fn pattern_of_text<'a, A: Allocator + Copy>(
    alloc: A,
    text: &'a str,
) -> Result<MessagePattern<A>, QuestionsFault<'a>>
    ensures pattern { IfOk result (IsPatternOf text.now) }
    ensures refused { IfErr result (IsQuestionFault text.now) }
{
    match read_pattern(alloc, text.as_bytes()) {
        Ok(PatternReading::Pattern(pattern)) => Ok(pattern),
        Ok(PatternReading::NoTerm(fault)) => {
            let reason = no_term_words(fault);
            Err(QuestionsFault::NoPattern { text, reason })
        }
        Ok(PatternReading::NoPattern) => {
            let reason = "an atom of $ and a number in it is no variable";
            Err(QuestionsFault::NoPattern { text, reason })
        }
        Err(_) => Err(QuestionsFault::OutOfMemory),
    }
}

/// Adds the pattern that a text spells.
fn add_question<'a, A: Allocator + Copy>(
    alloc: A,
    text: &'a str,
    demand: Demand,
    questions: &mut Vec<PatternQuestion<A>, A>,
) -> Result<(), QuestionsFault<'a>>
    ensures added { IfOk result (λ _. AddsQuestion (demand_seen demand) text.now
        questions.old.items questions.new.items) }
    ensures refused { IfErr result (IsQuestionFault text.now) }
{
    let pattern = pattern_of_text(alloc, text)?;
    let Ok(()) = questions.push(PatternQuestion { pattern, demand }) else {
        return Err(QuestionsFault::OutOfMemory);
    };
    Ok(())
}

/// Adds the patterns that these texts spell, of each of which the same is demanded.
///
/// # Errors
///
/// QuestionsFault for the first that spells none, or where memory was refused.
pub fn add_questions<'a, A: Allocator + Copy>(
    alloc: A,
    texts: &'a [&'a str],
    demand: Demand,
    questions: &mut Vec<PatternQuestion<A>, A>,
) -> Result<(), QuestionsFault<'a>>
    ensures added { IfOk result (λ _. AddsQuestions (demand_seen demand) (map (λ t. t.now) texts.now)
        questions.old.items questions.new.items) }
    ensures refused { IfErr result (IsTextsFault (map (λ t. t.now) texts.now)) }
{
    for text in texts {
        add_question(alloc, text, demand, questions)?;
    }
    Ok(())
}
