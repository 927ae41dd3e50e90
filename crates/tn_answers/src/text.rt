// The text of what an exploration answers.
ghost use Rattle.std.specs.Prelude.{◌≡◌, ◌++◌, Bool, IfOk, OnOk, codes, flat_map, length, map};
ghost use Rattle.def_explore.specs.Output.{closing_line};
ghost use Rattle.def_compare.specs.AnswerSummaries.{entry_texts_in, exploration_text_in};
ghost use Rattle.def_compare.specs.Answers.{about_patterns, about_trace};
ghost use Rattle.tn_explore.specs.Searches.{answer_entries};
ghost use Rattle.tn_messages.specs.MessageViews.{kept_seen};
ghost use Rattle.tn_answers.specs.AnswerViews.{session_header, session_name_seen};
ghost use Rattle.tn_answers.specs.SearchAnswers.{IsLinesAnswer, IsWordsAnswer, search_question_seen};
ghost use Rattle.tn_comparison.specs.Matches.{trace_question_seen};
ghost use Rattle.tn_message_pattern.specs.Questions.{pattern_question_seen};

use crate::comparison::{is_impossible, is_settled, put_match};
use crate::entry::{SessionName, put_entry_at, put_header};
use crate::last_line::put_closing;
use crate::words::put_patterns;
use std::alloc::{AllocError, Allocator};
use tn_comparison::TraceQuestion;
use tn_explore::{Answers, Exploration};
use tn_message_pattern::PatternQuestion;
use tn_messages::KeptListings;

/// Appends the entries, each with its number.
fn put_entries<A: Allocator + Copy, B: Allocator>(
    alloc: A,
    sessions: &[SessionName<A>],
    answers: &Answers<A, KeptListings<A>>,
    is_summary: bool,
    out: &mut Vec<u8, B>,
) -> Result<(), AllocError>
    ensures { let ss = map session_name_seen sessions.now in let es = answer_entries kept_seen answers.now.entries in
        OnOk result (out.new.items ≡ out.old.items ++ entry_texts_in is_summary ss (length es) 1 es) }
{
    let count = answers.len();
    for number in 0..count {
        put_entry_at(alloc, sessions, answers, (number, count), is_summary, out)?;
    }
    Ok(())
}

/// Appends what was explored.
fn put_explored<A: Allocator, B: Allocator>(
    exploration: &Exploration<A, KeptListings<A>>,
    out: &mut Vec<u8, B>,
) -> Result<(), AllocError>
    ensures { let es = answer_entries kept_seen exploration.now.answers.entries in
        OnOk result (out.new.items ≡ out.old.items ++ codes "== explored\n" ++
        closing_line exploration.now.states (length es) exploration.now.is_complete) }
{
    out.extend_from_slice(b"== explored\n")?;
    let count = exploration.answers.len();
    put_closing(exploration.states, count, exploration.is_complete, out)
}

/// The text of what an exploration of these sessions answers.
fn exploration_text<A: Allocator + Copy>(
    alloc: A,
    sessions: &[SessionName<A>],
    exploration: &Exploration<A, KeptListings<A>>,
    is_summary: bool,
) -> Result<Vec<u8, A>, AllocError>
    ensures { let es = answer_entries kept_seen exploration.now.answers.entries in
        IfOk result (λ v. v.items ≡ exploration_text_in is_summary (map session_name_seen sessions.now) es
        exploration.now.states exploration.now.is_complete) }
{
    let mut text = Vec::new(alloc);
    put_entries(alloc, sessions, &exploration.answers, is_summary, &mut text)?;
    put_explored(exploration, &mut text)?;
    Ok(text)
}

/// Appends the header of each session.
fn put_headers<A: Allocator, B: Allocator>(
    sessions: &[SessionName<A>],
    out: &mut Vec<u8, B>,
) -> Result<(), AllocError>
    ensures { OnOk result (out.new.items ≡ out.old.items ++ flat_map session_header sessions.now) }
{
    for session in sessions {
        put_header(session, out)?;
    }
    Ok(())
}

/// What a search is asked.
#[derive(Clone, Copy)]
pub enum SearchQuestion<'a, P: Allocator> {
    /// The words for these patterns; the listings where there are none.
    Patterns(&'a [PatternQuestion<P>]),
    /// Whether this trace is possible.
    Trace(&'a TraceQuestion<P>),
}

/// What a search answers.
#[derive(Drop)]
pub struct SearchAnswer<A: Allocator> {
    pub text: Vec<u8, A>,
    /// Whether what is demanded of a pattern is refuted, or the trace is impossible.
    pub is_unmet: bool,
    /// Whether all states were tried, or the trace is possible.
    pub is_settled: bool,
}

/// What an exploration of these sessions answers about patterns.
fn words_answer<A: Allocator + Copy, P: Allocator>(
    alloc: A,
    sessions: &[SessionName<A>],
    questions: &[PatternQuestion<P>],
    exploration: &Exploration<A, KeptListings<A>>,
) -> Result<SearchAnswer<A>, AllocError>
    ensures { IfOk result (IsWordsAnswer sessions.now questions.now exploration.now) }
{
    let mut text = Vec::new(alloc);
    put_headers(sessions, &mut text)?;
    let is_unmet = put_patterns(alloc, questions, exploration, &mut text)?;
    put_explored(exploration, &mut text)?;
    Ok(SearchAnswer {
        text,
        is_unmet,
        is_settled: exploration.is_complete,
    })
}

/// What it answers about patterns: its listings where there are none.
fn patterns_answer<A: Allocator + Copy, P: Allocator>(
    alloc: A,
    sessions: &[SessionName<A>],
    questions: &[PatternQuestion<P>],
    exploration: &Exploration<A, KeptListings<A>>,
    is_summary: bool,
) -> Result<SearchAnswer<A>, AllocError>
    ensures { let asked = about_patterns (map pattern_question_seen questions.now) in
        IfOk result (IsLinesAnswer is_summary sessions.now asked exploration.now) }
{
    if questions.is_empty() {
        return Ok(SearchAnswer {
            text: exploration_text(alloc, sessions, exploration, is_summary)?,
            is_unmet: false,
            is_settled: exploration.is_complete,
        });
    }
    words_answer(alloc, sessions, questions, exploration)
}

/// What it answers about a trace.
fn trace_answer<A: Allocator + Copy, P: Allocator>(
    alloc: A,
    sessions: &[SessionName<A>],
    question: &TraceQuestion<P>,
    exploration: &Exploration<A, KeptListings<A>>,
) -> Result<SearchAnswer<A>, AllocError>
    ensures { let asked = about_trace (trace_question_seen question.now) in
        IfOk result (λ a. (b : Bool) → IsLinesAnswer b sessions.now asked exploration.now a) }
{
    let mut text = Vec::new(alloc);
    put_headers(sessions, &mut text)?;
    let is_possible = put_match(alloc, question, exploration, &mut text)?;
    put_explored(exploration, &mut text)?;
    Ok(SearchAnswer {
        text,
        is_unmet: is_impossible(exploration.is_complete, is_possible),
        is_settled: is_settled(exploration.is_complete, is_possible),
    })
}

/// What an exploration of these sessions answers, as lines for a reader, with the listings or with their summary.
pub(crate) fn lines_answer<A: Allocator + Copy, P: Allocator>(
    alloc: A,
    sessions: &[SessionName<A>],
    question: &SearchQuestion<'_, P>,
    exploration: &Exploration<A, KeptListings<A>>,
    is_summary: bool,
) -> Result<SearchAnswer<A>, AllocError>
    ensures { IfOk result
        (IsLinesAnswer is_summary sessions.now (search_question_seen question.now) exploration.now) }
{
    match question {
        SearchQuestion::Patterns(questions) => patterns_answer(
            alloc,
            sessions,
            questions,
            exploration,
            is_summary,
        ),
        SearchQuestion::Trace(question) => trace_answer(alloc, sessions, question, exploration),
    }
}
