// Whether a trace is possible, as JSON.
ghost use Rattle.std.specs.Prelude.{◌≡◌, ◌++◌, ◌∷◌, IfOk, None, codes, is_some, slice_get};
ghost use Rattle.std.specs.Option.{option_map};
ghost use Rattle.json.specs.Token.{key};
ghost use Rattle.json.specs.Tree.{json_tokens};
ghost use Rattle.def_formats.specs.JsonRows.{json_line};
ghost use Rattle.def_compare.specs.Output.{no_match_word};
ghost use Rattle.def_compare.specs.AnswerRows.{answer_row, more_value, possible_row, prefix_row};
ghost use Rattle.def_compare.specs.AnswerRows.{there_value, trace_row};
ghost use Rattle.def_compare.specs.Entries.{possible_by};
ghost use Rattle.tn_comparison.specs.Matches.{match_seen, prefix_seen, trace_question_seen};
ghost use Rattle.tn_explore.specs.Searches.{answer_entries};
ghost use Rattle.tn_formats.specs.Tokens.{AddsTokens};
ghost use Rattle.tn_messages.specs.MessageViews.{kept_seen};
ghost use Rattle.tn_renaming.specs.Pairs.{lent_term_seen};

use crate::comparison::no_match_word;
use crate::json_values::{put_pairs_member, put_picks_member, put_term_member};
use json::Writer;
use std::alloc::{AllocError, Allocator};
use tn_comparison::{
    TraceMatch, TracePrefix, TraceQuestion, count_in, longest_prefix, message_there, possible_by,
};
use tn_explore::Exploration;
use tn_formats::{JsonText, begin_row, end_row, put_number_member, put_text_member};
use tn_messages::KeptListings;
use tn_term::Term;

/// Appends the row of a run that shows the trace.
fn put_possible_row<A: Allocator + Copy>(
    alloc: A,
    out: JsonText<A>,
    found: &TraceMatch<'_, A>,
) -> Result<JsonText<A>, AllocError>
    ensures { IfOk result (λ v. v.lines.items ≡ out.lines.items ++ json_line (possible_row (match_seen found.now))) }
{
    let JsonText { lines, row } = out;
    let mut writer = begin_row(row)?;
    put_text_member(&mut writer, "answer", b"possible")?;
    put_picks_member(&mut writer, "journal", found.journal)?;
    put_pairs_member(alloc, &mut writer, &found.pairs)?;
    end_row(lines, writer)
}

/// Writes a member with the message that a run has in the place of one of the trace.
fn put_there_member<A: Allocator + Copy, P: Allocator>(
    alloc: A,
    writer: &mut Writer<A>,
    question: &TraceQuestion<P>,
    prefix: &TracePrefix<'_, A>,
    message: Option<&Term<P>>,
) -> Result<(), AllocError>
    ensures { let a = trace_question_seen question.now in let t = option_map lent_term_seen message.entry in
        AddsTokens result writer.old writer.new (key (codes "there") ∷ json_tokens (there_value a (prefix_seen prefix.now) t)) }
{
    let Some(message) = message else {
        writer.key("there")?;
        return writer.null();
    };
    let messages = question.messages.as_slice();
    let before = &messages[..prefix.count.min(messages.len())];
    let there = message_there(alloc, prefix.by.kept, &prefix.by.pairs, before, message)?;
    put_term_member(alloc, writer, "there", there)?;
    Ok(())
}

/// Writes a member with how many messages a run has beside those of the trace, where it has all of these.
fn put_more_member<A: Allocator + Copy, P: Allocator>(
    alloc: A,
    writer: &mut Writer<A>,
    prefix: &TracePrefix<'_, A>,
    message: Option<&Term<P>>,
) -> Result<(), AllocError>
    ensures { let t = option_map lent_term_seen message.entry in AddsTokens result writer.old writer.new
        (key (codes "more") ∷ json_tokens (more_value (prefix_seen prefix.now) t)) }
{
    if message.is_some() {
        writer.key("more")?;
        return writer.null();
    }
    let all = count_in(alloc, prefix.by.kept)?;
    put_number_member(writer, "more", all.saturating_sub(prefix.count))
}

/// The message of a trace after so many; None where it has no more.
fn message_after<P: Allocator>(question: &TraceQuestion<P>, count: usize) -> Option<&Term<P>>
    ensures { let a = trace_question_seen question.now in
        option_map lent_term_seen result ≡ slice_get a.messages count }
{
    let messages = question.messages.as_slice();
    if count < messages.len() {
        Some(&messages[count])
    } else {
        None
    }
}

/// Appends the row of the longest prefix.
fn put_prefix_row<A: Allocator + Copy, P: Allocator>(
    alloc: A,
    out: JsonText<A>,
    question: &TraceQuestion<P>,
    prefix: &TracePrefix<'_, A>,
    whole: bool,
) -> Result<JsonText<A>, AllocError>
    ensures { let a = trace_question_seen question.now in let f = prefix_seen prefix.now in IfOk result (λ v.
        v.lines.items ≡ out.lines.items ++ json_line (prefix_row a whole f (slice_get a.messages f.count))) }
{
    let message = message_after(question, prefix.count);
    let JsonText { lines, row } = out;
    let mut writer = begin_row(row)?;
    put_text_member(&mut writer, "answer", no_match_word(whole).as_bytes())?;
    put_number_member(&mut writer, "prefix", prefix.count)?;
    put_number_member(&mut writer, "of", question.messages.as_slice().len())?;
    put_picks_member(&mut writer, "journal", prefix.by.journal)?;
    put_pairs_member(alloc, &mut writer, &prefix.by.pairs)?;
    put_term_member(alloc, &mut writer, "not_there", message)?;
    put_there_member(alloc, &mut writer, question, prefix, message)?;
    put_more_member(alloc, &mut writer, prefix, message)?;
    end_row(lines, writer)
}

/// Appends the row of an answer without a run.
fn put_no_run_row<A: Allocator>(out: JsonText<A>, whole: bool) -> Result<JsonText<A>, AllocError>
    ensures { IfOk result (λ v. v.lines.items ≡ out.lines.items ++ json_line (answer_row (no_match_word whole))) }
{
    let JsonText { lines, row } = out;
    let mut writer = begin_row(row)?;
    put_text_member(&mut writer, "answer", no_match_word(whole).as_bytes())?;
    end_row(lines, writer)
}

/// Appends the row of a trace that no run shows.
fn put_no_match_row<A: Allocator + Copy, P: Allocator>(
    alloc: A,
    out: JsonText<A>,
    question: &TraceQuestion<P>,
    exploration: &Exploration<A, KeptListings<A>>,
) -> Result<JsonText<A>, AllocError>
    ensures { let es = answer_entries kept_seen exploration.now.answers.entries in
        let a = trace_question_seen question.now in IfOk result (λ v. v.lines.items ≡
        out.lines.items ++ json_line (trace_row a es exploration.now.is_complete None)) }
{
    let Some(prefix) = longest_prefix(alloc, &question.messages, &exploration.answers)? else {
        return put_no_run_row(out, exploration.is_complete);
    };
    put_prefix_row(alloc, out, question, &prefix, exploration.is_complete)
}

/// The rows so far, and whether a run shows the trace.
#[derive(Drop)]
pub(crate) struct TraceRows<A: Allocator> {
    pub(crate) out: JsonText<A>,
    pub(crate) is_possible: bool,
}

/// Appends the row that says whether the trace is possible: whether a run shows it.
pub(crate) fn put_trace_row<A: Allocator + Copy, P: Allocator>(
    alloc: A,
    out: JsonText<A>,
    question: &TraceQuestion<P>,
    exploration: &Exploration<A, KeptListings<A>>,
) -> Result<TraceRows<A>, AllocError>
    ensures row { let es = answer_entries kept_seen exploration.now.answers.entries in
        let a = trace_question_seen question.now in let whole = exploration.now.is_complete in IfOk result (λ r.
        r.out.lines.items ≡ out.lines.items ++ json_line (trace_row a es whole (possible_by a es))) }
    ensures possible { let es = answer_entries kept_seen exploration.now.answers.entries in
        IfOk result (λ r. r.is_possible ≡ is_some (possible_by (trace_question_seen question.now) es)) }
{
    if let Some(found) = possible_by(alloc, question, &exploration.answers)? {
        return Ok(TraceRows {
            out: put_possible_row(alloc, out, &found)?,
            is_possible: true,
        });
    }
    Ok(TraceRows {
        out: put_no_match_row(alloc, out, question, exploration)?,
        is_possible: false,
    })
}
