// The message by which the moves of a run are chosen, as a request asks for it.
ghost use Rattle.std.specs.Prelude.{◌≡◌, IfErr, IfOk};
ghost use Rattle.tn_exploration.specs.Questions.{IsPatternOf};
ghost use Rattle.tn_message_choice.specs.Choices.{choice_seen};
ghost use Rattle.tn_spec.specs.Views.{pattern_seen};
ghost use Rattle.tn_request.specs.MessagesAsked.{IsMessageFault, choice_asked, chosen_run, pattern_option};

use crate::exploration::PatternsFault;
use crate::request::{MessageArgs, MessageRequest, RunRequest};
use std::alloc::Global;
use tn_exploration::pattern_of_text;
use tn_message_choice::{MessageChoice, MessageFilter};
use tn_message_pattern::MessagePattern;

/// The option that has the pattern.
fn pattern_option(is_missing: bool) -> &'static str
    ensures { result.now ≡ pattern_option is_missing }
{
    if is_missing {
        "--why-not <PATTERN>"
    } else {
        "--message <PATTERN>"
    }
}

/// The pattern of the message. An error is a text that spells none, or refused memory.
pub(crate) fn pattern_of<'a>(
    alloc: Global,
    words: &MessageArgs<'a>,
) -> Result<MessagePattern<Global>, PatternsFault<'a>>
    ensures pattern { IfOk result (IsPatternOf words.now.pattern.now) }
    ensures refused { IfErr result (IsMessageFault words.now) }
{
    match pattern_of_text(alloc, words.pattern) {
        Ok(pattern) => Ok(pattern),
        Err(fault) => Err(PatternsFault {
            option: pattern_option(words.is_missing),
            fault,
        }),
    }
}

/// What is asked of the messages, by the pattern that was read.
pub(crate) fn choice_of<'a>(
    words: &MessageArgs<'_>,
    pattern: &'a MessagePattern<Global>,
) -> MessageChoice<'a>
    ensures { choice_seen result ≡ choice_asked words.now.is_missing (pattern_seen pattern.now.pattern) }
{
    if words.is_missing {
        MessageChoice::SendsNone(pattern)
    } else {
        MessageChoice::Sends(pattern)
    }
}

/// The run that is explained, with what is asked of its messages.
pub(crate) fn chosen_run<'a, 'w: 'a>(
    words: &MessageRequest<'w>,
    choice: MessageChoice<'a>,
) -> RunRequest<'a>
    ensures { result ≡ chosen_run words.now choice.entry }
{
    RunRequest::Explain {
        script: words.script,
        run: words.run,
        filter: words.filter,
        message: Some(MessageFilter::Choice(choice)),
        expectation: words.expectation,
    }
}
