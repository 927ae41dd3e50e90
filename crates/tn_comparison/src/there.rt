// What a run has in the place of a message of a trace.
ghost use Rattle.std.specs.Prelude.{◌≡◌, IfOk, filter, flat_map, length, map, slice_get};
ghost use Rattle.std.specs.Option.{option_map};
ghost use Rattle.def_compare.specs.Output.{count_with, message_of_partner_after, message_there, messages_of_process};
ghost use Rattle.def_compare.specs.Output.{partner_in, partner_of};
ghost use Rattle.def_compare.specs.Traces.{count_in, lists_in};
ghost use Rattle.def_explore.specs.Rests.{is_of_process, message_process};
ghost use Rattle.tn_messages.specs.MessageViews.{kept_seen};
ghost use Rattle.tn_renaming.specs.Pairs.{pair_seen, lent_term_seen, lent_terms_seen};
ghost use Rattle.tn_term.specs.Views.{tree_of};

use crate::lists::{TermList, all_in, lists_in};
use crate::orders::{all_of, messages_of_process};
use std::alloc::{AllocError, Allocator};
use tn_messages::{KeptListings, message_process};
use tn_renaming::PidPair;
use tn_term::Term;

/// All messages that are kept, list after list.
fn all_kept<'e, A: Allocator + Copy>(
    alloc: A,
    kept: &'e KeptListings<A>,
) -> Result<TermList<'e, A, A>, AllocError>
    ensures { IfOk result (λ v. lent_terms_seen v ≡ flat_map (λ ms. ms) (lists_in (kept_seen kept.now))) }
{
    let lists = lists_in(alloc, kept)?;
    let all = all_in(alloc, &lists)?;
    Ok(all)
}

/// How many messages are kept.
///
/// # Errors
///
/// AllocError where memory was refused.
pub fn count_in<A: Allocator + Copy>(alloc: A, kept: &KeptListings<A>) -> Result<usize, AllocError>
    ensures { IfOk result (λ n. n ≡ count_in (kept_seen kept.now)) }
{
    Ok(all_kept(alloc, kept)?.len())
}

/// The partner of a pid.
fn partner_of(pairs: &[PidPair], pid: u32) -> Option<u32>
    ensures { result ≡ partner_of (map pair_seen pairs.now) pid }
{
    for pair in pairs {
        if pair.there == pid {
            return Some(pair.here);
        }
    }
    None
}

/// How many of some messages are of a process.
fn count_of<P: Allocator, A: Allocator + Copy>(
    alloc: A,
    pid: u32,
    messages: &[Term<P>],
) -> Result<usize, AllocError>
    ensures { IfOk result (λ n. n ≡ length (filter (is_of_process pid) (map tree_of messages.now))) }
{
    let all = all_of(alloc, messages)?;
    Ok(messages_of_process(alloc, pid, &all)?.len())
}

/// The message at a place of those of a process.
fn message_of<'e, A: Allocator + Copy>(
    alloc: A,
    kept: &'e KeptListings<A>,
    pid: u32,
    place: usize,
) -> Result<Option<&'e Term<A>>, AllocError>
    ensures { let messages = messages_of_process (kept_seen kept.now) pid in
        IfOk result (λ o. option_map lent_term_seen o ≡ slice_get messages place) }
{
    let all = all_kept(alloc, kept)?;
    let messages = messages_of_process(alloc, pid, &all)?;
    Ok(messages.get(place).copied())
}

/// The message at a place of all.
fn message_at<'e, A: Allocator + Copy>(
    alloc: A,
    kept: &'e KeptListings<A>,
    place: usize,
) -> Result<Option<&'e Term<A>>, AllocError>
    ensures { let ms = flat_map (λ ms. ms) (lists_in (kept_seen kept.now)) in
        IfOk result (λ o. option_map lent_term_seen o ≡ slice_get ms place) }
{
    let all = all_kept(alloc, kept)?;
    Ok(all.get(place).copied())
}

/// The message that the partner of a message's process has in its place, which comes after these.
fn message_of_partner<'e, P: Allocator, A: Allocator + Copy>(
    alloc: A,
    kept: &'e KeptListings<A>,
    pairs: &[PidPair],
    before: &[Term<P>],
    message: &Term<P>,
) -> Result<Option<&'e Term<A>>, AllocError>
    ensures { let process = message_process (tree_of message.now) in
        let partner = partner_in (map pair_seen pairs.now) process in
        let count = count_with (map tree_of before.now) process in
        IfOk result (λ o. option_map lent_term_seen o ≡ message_of_partner_after (kept_seen kept.now) partner count) }
{
    let Some(pid) = message_process(message) else {
        return Ok(None);
    };
    let Some(partner) = partner_of(pairs, pid) else {
        return Ok(None);
    };
    let place = count_of(alloc, pid, before)?;
    message_of(alloc, kept, partner, place)
}

/// The message that a run has in the place of a message of a trace, which comes after these.
///
/// # Errors
///
/// AllocError where memory was refused.
pub fn message_there<'e, P: Allocator, A: Allocator + Copy>(
    alloc: A,
    kept: &'e KeptListings<A>,
    pairs: &[PidPair],
    before: &[Term<P>],
    message: &Term<P>,
) -> Result<Option<&'e Term<A>>, AllocError>
    ensures { let ps = map pair_seen pairs.now in let ms = map tree_of before.now in IfOk result (λ o.
        option_map lent_term_seen o ≡ message_there (kept_seen kept.now) ps ms (tree_of message.now)) }
{
    match kept {
        KeptListings::Total(_) => message_at(alloc, kept, before.len()),
        KeptListings::ByProcess(_) => message_of_partner(alloc, kept, pairs, before, message),
    }
}
