// What a search answers about a trace.
ghost use Rattle.std.specs.Prelude.{◌≡◌, ◌&&◌, ◌||◌, ◌++◌, IfOk, None, OnOk, flat_map, is_some, not, slice_get};
ghost use Rattle.std.specs.Option.{option_map};
ghost use Rattle.def_compare.specs.Entries.{possible_by};
ghost use Rattle.def_compare.specs.Output.{trace_difference_text, match_text, more_line, no_match_word};
ghost use Rattle.def_compare.specs.Output.{longest_prefix_text, pair_line, possible_text, there_line};
ghost use Rattle.tn_comparison.specs.Matches.{match_seen, prefix_seen, trace_question_seen};
ghost use Rattle.tn_explore.specs.Searches.{answer_entries};
ghost use Rattle.tn_messages.specs.MessageViews.{kept_seen};
ghost use Rattle.tn_renaming.specs.Pairs.{pair_seen, lent_term_seen};

use crate::entry::put_picks;
use crate::last_line::put_counted;
use std::alloc::{AllocError, Allocator};
use tn_comparison::{
    TraceMatch, TracePrefix, TraceQuestion, count_in, longest_prefix, message_there, possible_by,
};
use tn_explore::Exploration;
use tn_messages::KeptListings;
use tn_renaming::PidPair;
use tn_term::Term;
use tn_text::{write_decimal, write_pid, write_term};

/// Appends which pid of the run a pid of the trace is.
fn put_pair<B: Allocator>(pair: PidPair, out: &mut Vec<u8, B>) -> Result<(), AllocError>
    ensures { OnOk result (out.new.items ≡ out.old.items ++ pair_line (pair_seen pair)) }
{
    write_pid(pair.there, out)?;
    out.extend_from_slice(b" is ")?;
    write_pid(pair.here, out)?;
    out.push(b'\n')?;
    Ok(())
}

/// Appends which pids are which.
fn put_pairs<B: Allocator>(pairs: &[PidPair], out: &mut Vec<u8, B>) -> Result<(), AllocError>
    ensures { OnOk result (out.new.items ≡ out.old.items ++ flat_map (λ p. pair_line (pair_seen p)) pairs.now) }
{
    for pair in pairs {
        put_pair(*pair, out)?;
    }
    Ok(())
}

/// Appends the run that shows the trace.
fn put_possible<A: Allocator, B: Allocator>(
    found: &TraceMatch<'_, A>,
    out: &mut Vec<u8, B>,
) -> Result<(), AllocError>
    ensures { OnOk result (out.new.items ≡ out.old.items ++ possible_text (match_seen found.now)) }
{
    out.extend_from_slice(b"possible: journal")?;
    put_picks(found.journal, out)?;
    out.push(b'\n')?;
    put_pairs(&found.pairs, out)?;
    Ok(())
}

/// Appends the message that a run has in the place of one of the trace, or that it has none.
fn put_there<A: Allocator, B: Allocator>(
    message: Option<&Term<A>>,
    out: &mut Vec<u8, B>,
) -> Result<(), AllocError>
    ensures { let there = option_map lent_term_seen message.entry in
        OnOk result (out.new.items ≡ out.old.items ++ there_line there) }
{
    let Some(message) = message else {
        return out.extend_from_slice(b"there: no message\n");
    };
    out.extend_from_slice(b"there: ")?;
    write_term(message, out)?;
    out.push(b'\n')?;
    Ok(())
}

/// Appends how many messages a run has beside those of the trace.
fn put_more<A: Allocator + Copy, B: Allocator>(
    alloc: A,
    prefix: &TracePrefix<'_, A>,
    out: &mut Vec<u8, B>,
) -> Result<(), AllocError>
    ensures { OnOk result (out.new.items ≡ out.old.items ++ more_line (prefix_seen prefix.now)) }
{
    let all = count_in(alloc, prefix.by.kept)?;
    out.extend_from_slice(b"not in the trace: ")?;
    write_decimal(all.saturating_sub(prefix.count), out)?;
    out.extend_from_slice(b" more\n")
}

/// Appends where a run that begins with a prefix of the trace differs from it.
fn put_difference<A: Allocator + Copy, P: Allocator, B: Allocator>(
    alloc: A,
    question: &TraceQuestion<P>,
    prefix: &TracePrefix<'_, A>,
    out: &mut Vec<u8, B>,
) -> Result<(), AllocError>
    ensures { let a = trace_question_seen question.now in let f = prefix_seen prefix.now in
        OnOk result (out.new.items ≡ out.old.items ++ trace_difference_text a f (slice_get a.messages f.count)) }
{
    let messages = question.messages.as_slice();
    let Some(message) = messages.get(prefix.count) else {
        return put_more(alloc, prefix, out);
    };
    out.extend_from_slice(b"not there: ")?;
    write_term(message, out)?;
    out.push(b'\n')?;
    let before = &messages[..prefix.count.min(messages.len())];
    let there = message_there(alloc, prefix.by.kept, &prefix.by.pairs, before, message)?;
    put_there(there, out)?;
    Ok(())
}

/// Whether all states were tried, so that no run shows the trace.
pub(crate) fn no_match_word(whole: bool) -> &'static str
    ensures { result.now ≡ no_match_word whole }
{
    if whole { "impossible" } else { "unknown" }
}

/// Appends the longest prefix, the run that begins with it, and where the two differ.
fn put_longest<A: Allocator + Copy, P: Allocator, B: Allocator>(
    alloc: A,
    question: &TraceQuestion<P>,
    prefix: &TracePrefix<'_, A>,
    out: &mut Vec<u8, B>,
) -> Result<(), AllocError>
    ensures { let a = trace_question_seen question.now in
        OnOk result (out.new.items ≡ out.old.items ++ longest_prefix_text a (prefix_seen prefix.now)) }
{
    out.extend_from_slice(b": the longest prefix is ")?;
    write_decimal(prefix.count, out)?;
    out.extend_from_slice(b" of ")?;
    put_counted(question.messages.as_slice().len(), b"message", out)?;
    out.extend_from_slice(b": journal")?;
    put_picks(prefix.by.journal, out)?;
    out.push(b'\n')?;
    put_pairs(&prefix.by.pairs, out)?;
    put_difference(alloc, question, prefix, out)?;
    Ok(())
}

/// Appends that no run shows the trace, or that none was found.
fn put_no_match<A: Allocator + Copy, P: Allocator, B: Allocator>(
    alloc: A,
    question: &TraceQuestion<P>,
    exploration: &Exploration<A, KeptListings<A>>,
    out: &mut Vec<u8, B>,
) -> Result<(), AllocError>
    ensures { let es = answer_entries kept_seen exploration.now.answers.entries in
        let a = trace_question_seen question.now in let whole = exploration.now.is_complete in
        OnOk result (out.new.items ≡ out.old.items ++ match_text a es whole None) }
{
    out.extend_from_slice(no_match_word(exploration.is_complete).as_bytes())?;
    let Some(prefix) = longest_prefix(alloc, &question.messages, &exploration.answers)? else {
        out.extend_from_slice(b": no run to rest was met\n")?;
        return Ok(());
    };
    put_longest(alloc, question, &prefix, out)?;
    Ok(())
}

/// Whether no run shows the trace.
pub(crate) fn is_impossible(whole: bool, possible: bool) -> bool
    ensures { result ≡ (whole && not possible) }
{
    whole && !possible
}

/// Whether more states could change nothing.
pub(crate) fn is_settled(whole: bool, possible: bool) -> bool
    ensures { result ≡ (whole || possible) }
{
    whole || possible
}

/// Appends whether the trace is possible: whether a run shows it.
pub(crate) fn put_match<A: Allocator + Copy, P: Allocator, B: Allocator>(
    alloc: A,
    question: &TraceQuestion<P>,
    exploration: &Exploration<A, KeptListings<A>>,
    out: &mut Vec<u8, B>,
) -> Result<bool, AllocError>
    ensures text { let es = answer_entries kept_seen exploration.now.answers.entries in
        let a = trace_question_seen question.now in let whole = exploration.now.is_complete in
        OnOk result (out.new.items ≡ out.old.items ++ match_text a es whole (possible_by a es)) }
    ensures possible { let es = answer_entries kept_seen exploration.now.answers.entries in
        IfOk result (λ b. b ≡ is_some (possible_by (trace_question_seen question.now) es)) }
{
    if let Some(found) = possible_by(alloc, question, &exploration.answers)? {
        put_possible(&found, out)?;
        return Ok(true);
    }
    put_no_match(alloc, question, exploration, out)?;
    Ok(false)
}
