// What a search answers, as JSON.
ghost use Rattle.std.specs.Prelude.{◌≡◌, ◌++◌, IfOk, length, map};
ghost use Rattle.def_compare.specs.AnswerRows.{explored_row, json_answer};
ghost use Rattle.def_compare.specs.Answers.{about_patterns, about_trace};
ghost use Rattle.def_formats.specs.JsonRows.{json_line};
ghost use Rattle.tn_answers.specs.SearchAnswers.{IsListingsJson, IsSearchAnswer, IsWordsJson, search_question_seen};
ghost use Rattle.tn_comparison.specs.Matches.{trace_question_seen};
ghost use Rattle.tn_explore.specs.Searches.{answer_entries};
ghost use Rattle.tn_message_pattern.specs.Questions.{pattern_question_seen};
ghost use Rattle.tn_messages.specs.MessageViews.{kept_seen};

use crate::comparison::{is_impossible, is_settled};
use crate::entry::SessionName;
use crate::listing_rows::put_entries_rows;
use crate::text::{SearchAnswer, SearchQuestion};
use crate::trace_rows::{TraceRows, put_trace_row};
use crate::word_rows::{WordRows, put_asked_rows, put_pattern_rows};
use std::alloc::{AllocError, Allocator};
use tn_comparison::TraceQuestion;
use tn_explore::Exploration;
use tn_formats::{JsonText, begin_row, end_row, no_rows, put_boolean_member, put_number_member};
use tn_message_pattern::PatternQuestion;
use tn_messages::KeptListings;

/// Appends the row of what was explored.
fn put_explored_row<A: Allocator>(
    out: JsonText<A>,
    exploration: &Exploration<A, KeptListings<A>>,
) -> Result<JsonText<A>, AllocError>
    ensures { let es = answer_entries kept_seen exploration.now.answers.entries in IfOk result (λ v. v.lines.items ≡
        out.lines.items ++ json_line (explored_row exploration.now.states (length es) exploration.now.is_complete)) }
{
    let JsonText { lines, row } = out;
    let mut writer = begin_row(row)?;
    put_boolean_member(&mut writer, "complete", exploration.is_complete)?;
    put_number_member(&mut writer, "states", exploration.states)?;
    put_number_member(&mut writer, "listings", exploration.answers.len())?;
    end_row(lines, writer)
}

/// The listings.
fn listings_json<A: Allocator + Copy, N: Allocator>(
    alloc: A,
    sessions: &[SessionName<N>],
    exploration: &Exploration<A, KeptListings<A>>,
) -> Result<SearchAnswer<A>, AllocError>
    ensures { IfOk result (IsListingsJson sessions.now exploration.now) }
{
    let out = put_entries_rows(alloc, no_rows(alloc), sessions, &exploration.answers)?;
    let out = put_explored_row(out, exploration)?;
    Ok(SearchAnswer {
        text: out.lines,
        is_unmet: false,
        is_settled: exploration.is_complete,
    })
}

/// The words for patterns.
fn words_json<A: Allocator + Copy, N: Allocator, P: Allocator>(
    alloc: A,
    sessions: &[SessionName<N>],
    questions: &[PatternQuestion<P>],
    exploration: &Exploration<A, KeptListings<A>>,
) -> Result<SearchAnswer<A>, AllocError>
    ensures { IfOk result (IsWordsJson sessions.now questions.now exploration.now) }
{
    let out = put_asked_rows(alloc, no_rows(alloc), sessions)?;
    let WordRows { out, is_refuted } = put_pattern_rows(alloc, out, questions, exploration)?;
    let out = put_explored_row(out, exploration)?;
    Ok(SearchAnswer {
        text: out.lines,
        is_unmet: is_refuted,
        is_settled: exploration.is_complete,
    })
}

/// The words for patterns; the listings where there are none.
fn patterns_json<A: Allocator + Copy, N: Allocator, P: Allocator>(
    alloc: A,
    sessions: &[SessionName<N>],
    questions: &[PatternQuestion<P>],
    exploration: &Exploration<A, KeptListings<A>>,
) -> Result<SearchAnswer<A>, AllocError>
    ensures { let asked = about_patterns (map pattern_question_seen questions.now) in
        IfOk result (IsSearchAnswer json_answer sessions.now asked exploration.now) }
{
    if questions.is_empty() {
        return listings_json(alloc, sessions, exploration);
    }
    words_json(alloc, sessions, questions, exploration)
}

/// Whether a trace is possible.
fn trace_json<A: Allocator + Copy, N: Allocator, P: Allocator>(
    alloc: A,
    sessions: &[SessionName<N>],
    question: &TraceQuestion<P>,
    exploration: &Exploration<A, KeptListings<A>>,
) -> Result<SearchAnswer<A>, AllocError>
    ensures { let asked = about_trace (trace_question_seen question.now) in
        IfOk result (IsSearchAnswer json_answer sessions.now asked exploration.now) }
{
    let out = put_asked_rows(alloc, no_rows(alloc), sessions)?;
    let TraceRows { out, is_possible } = put_trace_row(alloc, out, question, exploration)?;
    let out = put_explored_row(out, exploration)?;
    Ok(SearchAnswer {
        text: out.lines,
        is_unmet: is_impossible(exploration.is_complete, is_possible),
        is_settled: is_settled(exploration.is_complete, is_possible),
    })
}

/// What an exploration of these sessions answers, as JSON, a value a line.
pub(crate) fn json_answer<A: Allocator + Copy, N: Allocator, P: Allocator>(
    alloc: A,
    sessions: &[SessionName<N>],
    question: &SearchQuestion<'_, P>,
    exploration: &Exploration<A, KeptListings<A>>,
) -> Result<SearchAnswer<A>, AllocError>
    ensures { let asked = search_question_seen question.now in
        IfOk result (IsSearchAnswer json_answer sessions.now asked exploration.now) }
{
    match question {
        SearchQuestion::Patterns(questions) => patterns_json(
            alloc,
            sessions,
            questions,
            exploration,
        ),
        SearchQuestion::Trace(question) => trace_json(alloc, sessions, question, exploration),
    }
}
