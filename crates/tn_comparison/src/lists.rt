// What is kept of a run's messages, as lists that are in an order.
ghost use Rattle.std.specs.Prelude.{◌≡◌, ◌++◌, ◌∷◌, [], IfOk, OnOk, filter, flat_map, map};
ghost use Rattle.def_compare.specs.Traces.{has_message, lists_in, lists_with_messages};
ghost use Rattle.def_explore.specs.Rests.{kept_by_process, kept_messages};
ghost use Rattle.tn_messages.specs.MessageViews.{kept_seen, lists_seen, message_tree, trees_seen};
ghost use Rattle.tn_renaming.specs.Pairs.{lent_terms_seen};

use std::alloc::{AllocError, Allocator};
use tn_messages::{KeptListings, MessageList, SharedMessage};
use tn_term::Term;

/// Messages that are in an order.
pub(crate) type TermList<'m, P, A> = Vec<&'m Term<P>, A>;

/// The terms of messages.
fn terms_of<'m, A: Allocator + Copy>(
    alloc: A,
    messages: &'m [SharedMessage<A>],
) -> Result<TermList<'m, A, A>, AllocError>
    ensures { IfOk result (λ v. lent_terms_seen v ≡ map message_tree messages.now) }
{
    let mut terms = Vec::with_capacity(alloc, messages.len())?;
    for message in messages {
        terms.push(message.term())?;
    }
    Ok(terms)
}

/// Adds lists of messages.
fn add_lists<'m, A: Allocator + Copy>(
    alloc: A,
    messages: &'m [MessageList<A>],
    lists: &mut Vec<TermList<'m, A, A>, A>,
) -> Result<(), AllocError>
    ensures { IfOk result (λ _. map lent_terms_seen lists.new.items ≡
        map lent_terms_seen lists.old.items ++ map trees_seen messages.now) }
{
    for list in messages {
        lists.push(terms_of(alloc, list)?)?;
    }
    Ok(())
}

/// Adds those of sessions.
fn add_sessions<'m, A: Allocator + Copy>(
    alloc: A,
    sessions: &'m [Vec<MessageList<A>, A>],
    lists: &mut Vec<TermList<'m, A, A>, A>,
) -> Result<(), AllocError>
    ensures { IfOk result (λ _. map lent_terms_seen lists.new.items ≡
        map lent_terms_seen lists.old.items ++ flat_map (λ v. lists_seen v) sessions.now) }
{
    for session in sessions {
        add_lists(alloc, session, lists)?;
    }
    Ok(())
}

/// All messages of each session.
fn total_lists<'m, A: Allocator + Copy>(
    alloc: A,
    listings: &'m Vec<MessageList<A>, A>,
) -> Result<Vec<TermList<'m, A, A>, A>, AllocError>
    ensures { let kept = kept_messages (map trees_seen listings.now.items) in
        IfOk result (λ v. map lent_terms_seen v.items ≡ lists_in kept) }
{
    let mut lists = Vec::new(alloc);
    add_lists(alloc, listings, &mut lists)?;
    Ok(lists)
}

/// The messages of each session and process.
fn process_lists<'m, A: Allocator + Copy>(
    alloc: A,
    sessions: &'m Vec<Vec<MessageList<A>, A>, A>,
) -> Result<Vec<TermList<'m, A, A>, A>, AllocError>
    ensures { let kept = kept_by_process (map lists_seen sessions.now.items) in
        IfOk result (λ v. map lent_terms_seen v.items ≡ lists_in kept) }
{
    let mut lists = Vec::new(alloc);
    add_sessions(alloc, sessions, &mut lists)?;
    Ok(lists)
}

/// What is kept, as lists that are in an order.
pub(crate) fn lists_in<'m, A: Allocator + Copy>(
    alloc: A,
    kept: &'m KeptListings<A>,
) -> Result<Vec<TermList<'m, A, A>, A>, AllocError>
    ensures { IfOk result (λ v. map lent_terms_seen v.items ≡ lists_in (kept_seen kept.now)) }
{
    match kept {
        KeptListings::Total(listings) => total_lists(alloc, listings),
        KeptListings::ByProcess(sessions) => process_lists(alloc, sessions),
    }
}

/// Adds a list that has a message.
fn add_with_message<'m, A: Allocator>(
    list: TermList<'m, A, A>,
    lists: &mut Vec<TermList<'m, A, A>, A>,
) -> Result<(), AllocError>
    ensures { OnOk result (map lent_terms_seen lists.new.items ≡
        map lent_terms_seen lists.old.items ++ filter has_message (lent_terms_seen list.entry ∷ [])) }
{
    if list.is_empty() {
        return Ok(());
    }
    lists.push(list)?;
    Ok(())
}

/// What is kept, as lists that are in an order and have a message.
pub(crate) fn lists_with_messages<'m, A: Allocator + Copy>(
    alloc: A,
    kept: &'m KeptListings<A>,
) -> Result<Vec<TermList<'m, A, A>, A>, AllocError>
    ensures { IfOk result (λ v. map lent_terms_seen v.items ≡ lists_with_messages (kept_seen kept.now)) }
{
    let mut lists = Vec::new(alloc);
    for list in lists_in(alloc, kept)? {
        add_with_message(list, &mut lists)?;
    }
    Ok(lists)
}

/// All that is in some lists.
pub(crate) fn all_in<'m, P: Allocator, A: Allocator + Copy>(
    alloc: A,
    lists: &[TermList<'m, P, A>],
) -> Result<TermList<'m, P, A>, AllocError>
    ensures { IfOk result (λ v. lent_terms_seen v ≡ flat_map (λ ms. ms) (map lent_terms_seen lists.now)) }
{
    let mut all = Vec::new(alloc);
    for list in lists {
        all.extend_from_slice(list)?;
    }
    Ok(all)
}
