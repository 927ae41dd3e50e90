// The words for patterns, as JSON.
ghost use Rattle.std.specs.Prelude.{◌≡◌, ◌++◌, IfOk, flat_map};
ghost use Rattle.std.specs.List.{list_any};
ghost use Rattle.std.specs.Option.{option_map};
ghost use Rattle.def_explore.specs.Output.{demand_text};
ghost use Rattle.def_explore.specs.Words.{is_refuted, refutes};
ghost use Rattle.def_formats.specs.JsonRows.{json_line};
ghost use Rattle.def_compare.specs.AnswerRows.{asked_row, pattern_row, word_row};
ghost use Rattle.tn_answers.specs.AnswerViews.{session_name_seen};
ghost use Rattle.tn_answers.specs.RowViews.{AddsWord};
ghost use Rattle.tn_explore.specs.Searches.{answer_entries};
ghost use Rattle.tn_message_pattern.specs.Questions.{demand_seen, pattern_question_seen};
ghost use Rattle.tn_messages.specs.MessageViews.{kept_seen};

use crate::entry::SessionName;
use crate::json_values::{put_atom_member, put_journal_member, put_text_of};
use crate::words::{either, first_journal, is_refuted, word_of};
use bumpalo::Bump;
use std::alloc::{AllocError, Allocator};
use tn_explore::Exploration;
use tn_formats::{JsonText, begin_row, end_row, put_boolean_member, put_text_member};
use tn_message_pattern::{Demand, PatternQuestion};
use tn_messages::KeptListings;

/// The word that is demanded.
fn demand_text(demand: Demand) -> &'static str
    ensures { result.now ≡ demand_text (demand_seen demand) }
{
    match demand {
        Demand::Any => "any word",
        Demand::Always => "always",
        Demand::Never => "never",
        Demand::Sometimes => "sometimes",
    }
}

/// The journal of a run that shows a match, and that of one that shows none.
#[derive(Clone, Copy)]
struct Witnesses<'a> {
    shown: Option<&'a [u32]>,
    missed: Option<&'a [u32]>,
}

/// Appends the row of a pattern.
fn put_word_row<A: Allocator + Copy, P: Allocator>(
    alloc: A,
    out: JsonText<A>,
    question: &PatternQuestion<P>,
    found: Witnesses<'_>,
    whole: bool,
) -> Result<JsonText<A>, AllocError>
    ensures { let s = option_map (λ v. v.now) found.entry.shown in let m = option_map (λ v. v.now) found.entry.missed in
        IfOk result (λ v. v.lines.items ≡
        out.lines.items ++ json_line (word_row (pattern_question_seen question.now) s m whole)) }
{
    let refuted = is_refuted(question.demand, found.shown, found.missed, whole);
    let word = word_of(found.shown, found.missed, whole);
    let JsonText { lines, row } = out;
    let mut writer = begin_row(row)?;
    put_text_of(alloc, &mut writer, "pattern", &question.pattern.term)?;
    put_text_member(&mut writer, "word", word.as_bytes())?;
    put_text_member(
        &mut writer,
        "demand",
        demand_text(question.demand).as_bytes(),
    )?;
    put_boolean_member(&mut writer, "refuted", refuted)?;
    put_journal_member(&mut writer, "shown_by", found.shown)?;
    put_journal_member(&mut writer, "not_by", found.missed)?;
    end_row(lines, writer)
}

/// The rows so far, and whether what is demanded of a pattern is refuted.
#[derive(Drop)]
pub(crate) struct WordRows<A: Allocator> {
    pub(crate) out: JsonText<A>,
    pub(crate) is_refuted: bool,
}

/// Appends the row of a pattern that an exploration gives.
fn put_pattern_row<A: Allocator + Copy, P: Allocator>(
    alloc: A,
    rows: WordRows<A>,
    question: &PatternQuestion<P>,
    exploration: &Exploration<A, KeptListings<A>>,
) -> Result<WordRows<A>, AllocError>
    ensures { let es = answer_entries kept_seen exploration.now.answers.entries in
        let a = pattern_question_seen question.now in let whole = exploration.now.is_complete in
        IfOk result (AddsWord rows (pattern_row es whole a) (refutes es whole a)) }
{
    let WordRows {
        out,
        is_refuted: before,
    } = rows;
    let arena = Bump::new(alloc);
    let shown = first_journal(&arena, &question.pattern, &exploration.answers, true)?;
    let missed = first_journal(&arena, &question.pattern, &exploration.answers, false)?;
    let found = Witnesses { shown, missed };
    let one = is_refuted(question.demand, shown, missed, exploration.is_complete);
    let out = put_word_row(alloc, out, question, found, exploration.is_complete)?;
    Ok(WordRows {
        out,
        is_refuted: either(before, one),
    })
}

/// Appends the row of each pattern.
pub(crate) fn put_pattern_rows<A: Allocator + Copy, P: Allocator>(
    alloc: A,
    out: JsonText<A>,
    questions: &[PatternQuestion<P>],
    exploration: &Exploration<A, KeptListings<A>>,
) -> Result<WordRows<A>, AllocError>
    ensures rows { let es = answer_entries kept_seen exploration.now.answers.entries in
        let whole = exploration.now.is_complete in IfOk result (λ r. r.out.lines.items ≡
        out.lines.items ++ flat_map (λ q. json_line (pattern_row es whole (pattern_question_seen q))) questions.now) }
    ensures refuted { let es = answer_entries kept_seen exploration.now.answers.entries in IfOk result (λ r.
        r.is_refuted ≡ list_any (λ q. refutes es exploration.now.is_complete (pattern_question_seen q)) questions.now) }
{
    let mut rows = WordRows {
        out,
        is_refuted: false,
    };
    for question in questions {
        rows = put_pattern_row(alloc, rows, question, exploration)?;
    }
    Ok(rows)
}

/// Appends the row of a session that is asked about.
fn put_asked_row<A: Allocator + Copy, N: Allocator>(
    alloc: A,
    out: JsonText<A>,
    session: &SessionName<N>,
) -> Result<JsonText<A>, AllocError>
    ensures { IfOk result (λ v. v.lines.items ≡
        out.lines.items ++ json_line (asked_row (session_name_seen session.now))) }
{
    let JsonText { lines, row } = out;
    let mut writer = begin_row(row)?;
    put_atom_member(alloc, &mut writer, "session", &session.name)?;
    put_atom_member(alloc, &mut writer, "tracer", &session.tracer)?;
    end_row(lines, writer)
}

/// Appends that of each.
pub(crate) fn put_asked_rows<A: Allocator + Copy, N: Allocator>(
    alloc: A,
    out: JsonText<A>,
    sessions: &[SessionName<N>],
) -> Result<JsonText<A>, AllocError>
    ensures { IfOk result (λ v. v.lines.items ≡
        out.lines.items ++ flat_map (λ s. json_line (asked_row (session_name_seen s))) sessions.now) }
{
    let mut out = out;
    for session in sessions {
        out = put_asked_row(alloc, out, session)?;
    }
    Ok(out)
}
