// What is asked of the messages of a run.
ghost use Rattle.std.specs.Prelude.{◌≡◌, IfOk};
ghost use Rattle.std.specs.Option.{option_map};
ghost use Rattle.def_explore.specs.Words.{is_match};
ghost use Rattle.def_message_choice.specs.MessageChoices.{flag_message, would_match, sends, chooses_message};
ghost use Rattle.tn_term.specs.Views.{tree_of};
ghost use Rattle.tn_flags.specs.Views.{event_of};
ghost use Rattle.tn_spec.specs.Views.{pattern_seen};
ghost use Rattle.tn_message_choice.specs.Choices.{choice_seen, one_would_match};

use bumpalo::Bump;
use std::alloc::{AllocError, Allocator, Global};
use tn_flags::Event;
use tn_message_pattern::MessagePattern;
use tn_session::Message;
use tn_term::Term;

/// By what a session chooses an event.
#[derive(Clone, Copy)]
pub enum MessageChoice<'a> {
    /// It sends a message that matches.
    Sends(&'a MessagePattern<Global>),
    /// It sends none, where one would match.
    SendsNone(&'a MessagePattern<Global>),
}

/// Which moves of a run are asked for by a message.
#[derive(Clone, Copy)]
pub enum MessageFilter<'a> {
    /// Those that a session chooses.
    Choice(MessageChoice<'a>),
    /// The one at which the session that is selected sends its message of this number, counted from 1.
    Number(u64),
}

/// What is asked of the messages of a run: by what events are chosen, and by the session of which name, where one is
/// given.
#[derive(Clone, Copy)]
pub struct MessageQuestion<'a> {
    pub choice: MessageChoice<'a>,
    pub session: Option<&'a str>,
}

/// Whether a message matches. An error is refused memory.
fn matches<A: Allocator + Copy>(
    alloc: A,
    pattern: &MessagePattern<Global>,
    message: &Term<A>,
) -> Result<bool, AllocError>
    ensures { IfOk result (λ b. b ≡ is_match (pattern_seen pattern.now.pattern) (tree_of message.now)) }
{
    let arena = Bump::new(alloc);
    pattern.matches(&arena, message)
}

/// Whether the message of an event by its trace flag alone matches, with the arity of a call or its arguments.
fn matches_plain<A: Allocator + Copy>(
    alloc: A,
    pattern: &MessagePattern<Global>,
    event: &Event<A>,
    short: bool,
) -> Result<bool, AllocError>
    ensures { IfOk result (λ b.
        b ≡ is_match (pattern_seen pattern.now.pattern) (flag_message short (event_of event.now))) }
{
    let message = Message {
        event,
        short,
        last: None,
    };
    let term = message.term(alloc)?;
    matches(alloc, pattern, &term)
}

/// Whether one of both messages matches.
fn one_matches<A: Allocator + Copy>(
    alloc: A,
    pattern: &MessagePattern<Global>,
    event: &Event<A>,
) -> Result<bool, AllocError>
    ensures { IfOk result (λ b. b ≡ one_would_match (pattern_seen pattern.now.pattern) (event_of event.now)) }
{
    let with_arguments = matches_plain(alloc, pattern, event, false)?;
    let with_arity = matches_plain(alloc, pattern, event, true)?;
    Ok(with_arguments | with_arity)
}

/// Whether a message matches, where there is one.
fn matches_some<A: Allocator + Copy>(
    alloc: A,
    pattern: &MessagePattern<Global>,
    message: &Option<Term<A>>,
    would: bool,
) -> Result<bool, AllocError>
    ensures { IfOk result (λ b.
        b ≡ chooses_message (sends (pattern_seen pattern.now.pattern)) would (option_map tree_of message.now)) }
{
    match message {
        Some(message) => matches(alloc, pattern, message),
        None => Ok(false),
    }
}

impl MessageChoice<'_> {
    /// Whether one of the messages of an event by its trace flag alone would match; where a message is to be sent this
    /// isn't asked.
    pub(crate) fn would_match<A: Allocator + Copy>(
        &self,
        alloc: A,
        event: &Event<A>,
    ) -> Result<bool, AllocError>
        ensures { IfOk result (λ b. b ≡ would_match (choice_seen self.now) (event_of event.now)) }
    {
        match self {
            MessageChoice::Sends(_) => Ok(false),
            MessageChoice::SendsNone(pattern) => one_matches(alloc, pattern, event),
        }
    }

    /// Whether a session chooses an event, by the message that it sends of it and whether one would match.
    pub(crate) fn chooses<A: Allocator + Copy>(
        &self,
        alloc: A,
        would: bool,
        message: &Option<Term<A>>,
    ) -> Result<bool, AllocError>
        ensures { IfOk result (λ b. b ≡ chooses_message (choice_seen self.now) would (option_map tree_of message.now)) }
    {
        match self {
            MessageChoice::Sends(pattern) => matches_some(alloc, pattern, message, would),
            MessageChoice::SendsNone(_) => Ok(would & message.is_none()),
        }
    }
}
