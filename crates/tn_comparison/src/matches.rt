// The entries that show a trace, or a prefix of it.
ghost use Rattle.std.specs.Prelude.{◌≡◌, ◌≤◌, IfOk, List, None, Some, length, map, slice_get};
ghost use Rattle.std.specs.Option.{option_map};
ghost use Rattle.def_compare.specs.Entries.{first_match, longest_prefix, match_or, possible_by};
ghost use Rattle.def_compare.specs.Entries.{prefix_match, prefix_or};
ghost use Rattle.def_compare.specs.Traces as traces;
ghost use Rattle.def_compare.specs.Traces.{begins_trace, shown_pairs};
ghost use Rattle.def_term.specs.Tree.{Tree};
ghost use Rattle.tn_comparison.specs.Orders.{AreTraceOrders};
ghost use Rattle.def_explore.specs.Answers.{RestEntry};
ghost use Rattle.tn_comparison.specs.Matches.{IsDemand, match_seen, prefix_seen, trace_question_seen};
ghost use Rattle.tn_explore.specs.Searches.{answer_entries};
ghost use Rattle.tn_messages.specs.MessageViews.{kept_seen};
ghost use Rattle.tn_renaming.specs.Pairs.{pairs_seen};
ghost use Rattle.tn_term.specs.Views.{tree_of};

use crate::lists::{lists_in, lists_with_messages};
use crate::orders::TraceOrders;
use crate::trace_question::TraceQuestion;
use std::alloc::{AllocError, Allocator};
use tn_explore::Answers;
use tn_messages::KeptListings;
use tn_renaming::{PidPair, first_renaming};
use tn_term::Term;

/// An entry, with the partners of the pids of a trace.
#[derive(Drop)]
pub struct TraceMatch<'e, A: Allocator> {
    /// What is kept of the run.
    pub kept: &'e KeptListings<A>,
    /// The picks of the run.
    pub journal: &'e [u32],
    /// Each pid of the trace with its partner.
    pub pairs: Vec<PidPair, A>,
}

/// An entry that begins with so many messages.
#[derive(Drop)]
pub struct TracePrefix<'e, A: Allocator> {
    pub count: usize,
    pub by: TraceMatch<'e, A>,
}

/// What a run must show: messages that are its first ones, in their orders, and whether it may have more of them.
#[derive(Drop)]
struct Demand<'m, P: Allocator, A: Allocator> {
    orders: TraceOrders<'m, P, A>,
    goes_on: bool,
}

/// Whether what is kept begins a trace, of which these messages are in an order.
pub(crate) fn begins_trace<P: Allocator, A: Allocator + Copy>(
    alloc: A,
    orders: &TraceOrders<'_, P, A>,
    kept: &KeptListings<A>,
) -> Result<bool, AllocError>
    ensures { IfOk result (λ b. (ms : List Tree) →
        AreTraceOrders ms orders.now → begins_trace ms (kept_seen kept.now) ≡ b) }
{
    let lists = lists_with_messages(alloc, kept)?;
    let found = first_renaming(alloc, &lists, orders.like(kept))?;
    Ok(found.is_some())
}

/// The partners by which a run shows what it must.
fn pairs_of<P: Allocator, A: Allocator + Copy>(
    alloc: A,
    demand: &Demand<'_, P, A>,
    kept: &KeptListings<A>,
) -> Result<Option<Vec<PidPair, A>>, AllocError>
    ensures { IfOk result (λ o. (a : traces.TraceQuestion) → IsDemand a demand.now →
        option_map pairs_seen o ≡ shown_pairs a (kept_seen kept.now)) }
{
    if !demand.goes_on && !begins_trace(alloc, &demand.orders, kept)? {
        return Ok(None);
    }
    let lists = lists_in(alloc, kept)?;
    let found = first_renaming(alloc, demand.orders.like(kept), &lists)?;
    Ok(found)
}

/// The entry at a place, where its run shows what it must.
fn match_at<'e, P: Allocator, A: Allocator + Copy>(
    alloc: A,
    demand: &Demand<'_, P, A>,
    answers: &'e Answers<A, KeptListings<A>>,
    place: usize,
) -> Result<Option<TraceMatch<'e, A>>, AllocError>
    ensures { let es = answer_entries kept_seen answers.now.entries in
        IfOk result (λ o. (a : traces.TraceQuestion) (e : RestEntry) → IsDemand a demand.now →
        slice_get es place ≡ Some e → option_map match_seen o ≡ match_or e (shown_pairs a e.kept) None) }
{
    let Some((kept, journal)) = answers.get_index(place) else {
        return Ok(None);
    };
    let Some(pairs) = pairs_of(alloc, demand, kept)? else {
        return Ok(None);
    };
    Ok(Some(TraceMatch {
        kept,
        journal,
        pairs,
    }))
}

/// The first of the entries whose run shows what it must.
fn first_match<'e, P: Allocator, A: Allocator + Copy>(
    alloc: A,
    demand: &Demand<'_, P, A>,
    answers: &'e Answers<A, KeptListings<A>>,
) -> Result<Option<TraceMatch<'e, A>>, AllocError>
    ensures { let es = answer_entries kept_seen answers.now.entries in
        IfOk result (λ o. (a : traces.TraceQuestion) → IsDemand a demand.now →
        option_map match_seen o ≡ first_match (shown_pairs a) es) }
{
    for place in 0..answers.len() {
        let found = match_at(alloc, demand, answers, place)?;
        if found.is_some() {
            return Ok(found);
        }
    }
    Ok(None)
}

/// The first of the entries whose run shows these messages, in their orders, before all others, or alone.
fn first_with<'e, P: Allocator, A: Allocator + Copy>(
    alloc: A,
    messages: &[Term<P>],
    goes_on: bool,
    answers: &'e Answers<A, KeptListings<A>>,
) -> Result<Option<TraceMatch<'e, A>>, AllocError>
    ensures { let es = answer_entries kept_seen answers.now.entries in
        let a : traces.TraceQuestion = record { messages = map tree_of messages.now; goes_on = goes_on } in
        IfOk result (λ o. option_map match_seen o ≡ first_match (shown_pairs a) es) }
{
    let orders = TraceOrders::of(alloc, messages)?;
    let demand = Demand { orders, goes_on };
    let found = first_match(alloc, &demand, answers)?;
    Ok(found)
}

/// The first of the entries that shows the trace.
///
/// # Errors
///
/// AllocError where memory was refused.
pub fn possible_by<'e, P: Allocator, A: Allocator + Copy>(
    alloc: A,
    question: &TraceQuestion<P>,
    answers: &'e Answers<A, KeptListings<A>>,
) -> Result<Option<TraceMatch<'e, A>>, AllocError>
    ensures { let es = answer_entries kept_seen answers.now.entries in
        IfOk result (λ o. option_map match_seen o ≡ possible_by (trace_question_seen question.now) es) }
{
    first_with(alloc, &question.messages, question.goes_on, answers)
}

/// The first of the entries that begins with so many of the messages.
fn prefix_match<'e, P: Allocator, A: Allocator + Copy>(
    alloc: A,
    messages: &[Term<P>],
    answers: &'e Answers<A, KeptListings<A>>,
    count: usize,
) -> Result<Option<TracePrefix<'e, A>>, AllocError>
    requires { count ≤ length messages.now }
    ensures { let es = answer_entries kept_seen answers.now.entries in IfOk result (λ o.
        option_map prefix_seen o ≡ prefix_or count (prefix_match (map tree_of messages.now) es count) None) }
{
    match first_with(alloc, &messages[..count], true, answers)? {
        Some(by) => Ok(Some(TracePrefix { count, by })),
        None => Ok(None),
    }
}

/// The first of the entries that begins with the most of these messages.
///
/// # Errors
///
/// AllocError where memory was refused.
pub fn longest_prefix<'e, P: Allocator, A: Allocator + Copy>(
    alloc: A,
    messages: &[Term<P>],
    answers: &'e Answers<A, KeptListings<A>>,
) -> Result<Option<TracePrefix<'e, A>>, AllocError>
    ensures { let es = answer_entries kept_seen answers.now.entries in let ms = map tree_of messages.now in
        IfOk result (λ o. option_map prefix_seen o ≡ longest_prefix ms es (length ms)) }
{
    for fewer in 0..messages.len() {
        let found = prefix_match(alloc, messages, answers, messages.len() - fewer)?;
        if found.is_some() {
            return Ok(found);
        }
    }
    prefix_match(alloc, messages, answers, 0)
}
