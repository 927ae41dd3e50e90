// The words for patterns.
ghost use Rattle.std.specs.Prelude.{◌≡◌, ◌||◌, ◌++◌, IfOk, OnOk, flat_map};
ghost use Rattle.std.specs.Option.{option_map};
ghost use Rattle.std.specs.List.{list_any};
ghost use Rattle.def_explore.specs.Output.{journal_line, pattern_lines, pattern_answer_text, refuted_line, word_text};
ghost use Rattle.def_explore.specs.Words.{is_refuted, refutes, word_by};
ghost use Rattle.tn_answers.specs.AnswerViews.{first_journal};
ghost use Rattle.tn_explore.specs.Searches.{answer_entries};
ghost use Rattle.tn_message_pattern.specs.Questions.{demand_seen, pattern_question_seen};
ghost use Rattle.tn_messages.specs.MessageViews.{kept_seen};
ghost use Rattle.tn_spec.specs.Views.{pattern_seen};

use crate::entry::put_picks;
use crate::matches::shows;
use bumpalo::Bump;
use std::alloc::{AllocError, Allocator};
use tn_explore::{Answers, Exploration};
use tn_message_pattern::{Demand, MessagePattern, PatternQuestion};
use tn_messages::KeptListings;
use tn_text::write_term;

/// The journal of the first entry that shows a match, or of the first that shows none.
pub(crate) fn first_journal<'a, A: Allocator, P: Allocator>(
    arena: &Bump<A>,
    pattern: &MessagePattern<P>,
    answers: &'a Answers<A, KeptListings<A>>,
    shown: bool,
) -> Result<Option<&'a [u32]>, AllocError>
    ensures { let es = answer_entries kept_seen answers.now.entries in
        IfOk result (λ j. option_map (λ v. v.now) j ≡ first_journal shown (pattern_seen pattern.now.pattern) es) }
{
    for place in 0..answers.len() {
        let Some((kept, journal)) = answers.get_index(place) else {
            return Ok(None);
        };
        if shows(arena, pattern, kept)? == shown {
            return Ok(Some(journal));
        }
    }
    Ok(None)
}

/// The word, by whether there is a journal that shows a match and one that shows none.
pub(crate) fn word_of(shown: Option<&[u32]>, missed: Option<&[u32]>, whole: bool) -> &'static str
    ensures { let s = option_map (λ v. v.now) shown.entry in let m = option_map (λ v. v.now) missed.entry in
        result.now ≡ word_text (word_by s m whole) }
{
    match (shown, missed, whole) {
        (Some(_), Some(_), _) => "sometimes",
        (Some(_), None, true) => "always",
        (None, Some(_), true) => "never",
        (Some(_), None, false) | (None, Some(_), false) | (None, None, _) => "unknown",
    }
}

/// Whether these journals refute what is demanded.
pub(crate) fn is_refuted(
    demand: Demand,
    shown: Option<&[u32]>,
    missed: Option<&[u32]>,
    whole: bool,
) -> bool
    ensures { let s = option_map (λ v. v.now) shown.entry in let m = option_map (λ v. v.now) missed.entry in
        result ≡ is_refuted (demand_seen demand) s m whole }
{
    match demand {
        Demand::Any => false,
        Demand::Always => missed.is_some() || (whole && shown.is_none()),
        Demand::Never => shown.is_some() || (whole && missed.is_none()),
        Demand::Sometimes => whole && !(shown.is_some() && missed.is_some()),
    }
}

/// Appends the line of a demand that is refuted.
fn put_refuted<B: Allocator>(
    demand: Demand,
    refuted: bool,
    out: &mut Vec<u8, B>,
) -> Result<(), AllocError>
    ensures { OnOk result (out.new.items ≡ out.old.items ++ refuted_line (demand_seen demand) refuted) }
{
    if !refuted {
        return Ok(());
    }
    let line = match demand {
        Demand::Any => "refuted: any word\n",
        Demand::Always => "refuted: always\n",
        Demand::Never => "refuted: never\n",
        Demand::Sometimes => "refuted: sometimes\n",
    };
    out.extend_from_slice(line.as_bytes())?;
    Ok(())
}

/// Appends the line of a journal, where there is one.
fn put_journal<B: Allocator>(
    words: &[u8],
    journal: Option<&[u32]>,
    out: &mut Vec<u8, B>,
) -> Result<(), AllocError>
    ensures { let j = option_map (λ v. v.now) journal.entry in
        OnOk result (out.new.items ≡ out.old.items ++ journal_line words.now j) }
{
    let Some(picks) = journal else {
        return Ok(());
    };
    out.extend_from_slice(words)?;
    put_picks(picks, out)?;
    out.push(b'\n')?;
    Ok(())
}

/// Appends the lines of a pattern: whether what is demanded of it is refuted.
fn put_lines<P: Allocator, B: Allocator>(
    question: &PatternQuestion<P>,
    shown: Option<&[u32]>,
    missed: Option<&[u32]>,
    whole: bool,
    out: &mut Vec<u8, B>,
) -> Result<bool, AllocError>
    ensures lines { let s = option_map (λ v. v.now) shown.entry in let m = option_map (λ v. v.now) missed.entry in
        OnOk result (out.new.items ≡ out.old.items ++ pattern_lines (pattern_question_seen question.now) s m whole) }
    ensures refuted { let s = option_map (λ v. v.now) shown.entry in let m = option_map (λ v. v.now) missed.entry in
        IfOk result (λ b. b ≡ is_refuted (demand_seen question.now.demand) s m whole) }
{
    out.extend_from_slice(word_of(shown, missed, whole).as_bytes())?;
    out.extend_from_slice(b": ")?;
    write_term(&question.pattern.term, out)?;
    out.push(b'\n')?;
    let refuted = is_refuted(question.demand, shown, missed, whole);
    put_refuted(question.demand, refuted, out)?;
    put_journal(b"shown by", shown, out)?;
    put_journal(b"not by", missed, out)?;
    Ok(refuted)
}

/// Appends the lines of a pattern that an exploration gives: whether what is demanded of it is refuted.
fn put_pattern<A: Allocator + Copy, P: Allocator, B: Allocator>(
    alloc: A,
    question: &PatternQuestion<P>,
    exploration: &Exploration<A, KeptListings<A>>,
    out: &mut Vec<u8, B>,
) -> Result<bool, AllocError>
    ensures lines { let es = answer_entries kept_seen exploration.now.answers.entries in OnOk result (out.new.items ≡
        out.old.items ++ pattern_answer_text es exploration.now.is_complete (pattern_question_seen question.now)) }
    ensures refuted { let es = answer_entries kept_seen exploration.now.answers.entries in
        IfOk result (λ b. b ≡ refutes es exploration.now.is_complete (pattern_question_seen question.now)) }
{
    let arena = Bump::new(alloc);
    let shown = first_journal(&arena, &question.pattern, &exploration.answers, true)?;
    let missed = first_journal(&arena, &question.pattern, &exploration.answers, false)?;
    put_lines(question, shown, missed, exploration.is_complete, out)
}

/// Whether one is so.
pub(crate) fn either(one: bool, other: bool) -> bool
    ensures { result ≡ (one || other) }
{
    one || other
}

/// Appends the lines of each pattern: whether what is demanded of one is refuted.
pub(crate) fn put_patterns<A: Allocator + Copy, P: Allocator, B: Allocator>(
    alloc: A,
    questions: &[PatternQuestion<P>],
    exploration: &Exploration<A, KeptListings<A>>,
    out: &mut Vec<u8, B>,
) -> Result<bool, AllocError>
    ensures lines { let es = answer_entries kept_seen exploration.now.answers.entries in
        let whole = exploration.now.is_complete in OnOk result (out.new.items ≡ out.old.items ++
        flat_map (λ q. pattern_answer_text es whole (pattern_question_seen q)) questions.now) }
    ensures refuted { let es = answer_entries kept_seen exploration.now.answers.entries in IfOk result (λ b.
        b ≡ list_any (λ q. refutes es exploration.now.is_complete (pattern_question_seen q)) questions.now) }
{
    let mut refuted = false;
    for question in questions {
        let one = put_pattern(alloc, question, exploration, out)?;
        refuted = either(refuted, one);
    }
    Ok(refuted)
}
