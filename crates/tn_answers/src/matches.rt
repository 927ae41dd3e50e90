// Whether what is kept of a run's messages has one that matches a pattern.
ghost use Rattle.std.specs.Prelude.{◌≡◌, IfOk, map};
ghost use Rattle.std.specs.List.{list_any};
ghost use Rattle.def_explore.specs.Words.{is_match, shows};
ghost use Rattle.tn_messages.specs.MessageViews.{message_tree, trees_seen, lists_seen, kept_seen};
ghost use Rattle.tn_spec.specs.Views.{pattern_seen};

use bumpalo::Bump;
use std::alloc::{AllocError, Allocator};
use tn_message_pattern::MessagePattern;
use tn_messages::{KeptListings, MessageList, SharedMessage};

/// Whether one of some messages matches.
fn has_match<A: Allocator, P: Allocator>(
    arena: &Bump<A>,
    pattern: &MessagePattern<P>,
    messages: &[SharedMessage<A>],
) -> Result<bool, AllocError>
    ensures { let a = pattern_seen pattern.now.pattern in
        IfOk result (λ b. b ≡ list_any (is_match a) (map message_tree messages.now)) }
{
    for message in messages {
        if pattern.matches(arena, message.term())? {
            return Ok(true);
        }
    }
    Ok(false)
}

/// Whether one of some lists has such a message.
fn have_match<A: Allocator, P: Allocator>(
    arena: &Bump<A>,
    pattern: &MessagePattern<P>,
    lists: &[MessageList<A>],
) -> Result<bool, AllocError>
    ensures { let a = pattern_seen pattern.now.pattern in
        IfOk result (λ b. b ≡ list_any (list_any (is_match a)) (map trees_seen lists.now)) }
{
    for messages in lists {
        if has_match(arena, pattern, messages)? {
            return Ok(true);
        }
    }
    Ok(false)
}

/// Whether one of some sessions has such a list.
fn sessions_have_match<A: Allocator, P: Allocator>(
    arena: &Bump<A>,
    pattern: &MessagePattern<P>,
    sessions: &[Vec<MessageList<A>, A>],
) -> Result<bool, AllocError>
    ensures { let a = pattern_seen pattern.now.pattern in
        IfOk result (λ b. b ≡ list_any (list_any (list_any (is_match a))) (map lists_seen sessions.now)) }
{
    for lists in sessions {
        if have_match(arena, pattern, lists)? {
            return Ok(true);
        }
    }
    Ok(false)
}

/// Whether what is kept shows a match.
pub(crate) fn shows<A: Allocator, P: Allocator>(
    arena: &Bump<A>,
    pattern: &MessagePattern<P>,
    kept: &KeptListings<A>,
) -> Result<bool, AllocError>
    ensures { IfOk result (λ b. b ≡ shows (pattern_seen pattern.now.pattern) (kept_seen kept.now)) }
{
    match kept {
        KeptListings::Total(lists) => have_match(arena, pattern, lists),
        KeptListings::ByProcess(sessions) => sessions_have_match(arena, pattern, sessions),
    }
}
