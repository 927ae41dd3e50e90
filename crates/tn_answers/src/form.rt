// What a search answers, in a form.
ghost use Rattle.std.specs.Prelude.{IfOk};
ghost use Rattle.tn_answers.specs.SearchAnswers.{IsSearchAnswer, form_seen, search_question_seen};

use crate::answer_rows::json_answer;
use crate::entry::SessionName;
use crate::text::{SearchAnswer, SearchQuestion, lines_answer};
use std::alloc::{AllocError, Allocator};
use tn_explore::Exploration;
use tn_messages::KeptListings;

/// The form of an answer.
#[derive(Clone, Copy, Debug, PartialEq, Eq)]
pub enum AnswerForm {
    /// Lines for a reader.
    Plain,
    /// Those with the summary of each listing in place of its messages.
    Summary,
    /// JSON, a value a line.
    Json,
}

/// What an exploration of these sessions answers: its listings, the words for patterns where there are any, or whether
/// a trace is possible.
///
/// # Errors
///
/// AllocError where memory was refused.
pub fn search_answer<A: Allocator + Copy, P: Allocator>(
    alloc: A,
    sessions: &[SessionName<A>],
    question: &SearchQuestion<'_, P>,
    exploration: &Exploration<A, KeptListings<A>>,
    form: AnswerForm,
) -> Result<SearchAnswer<A>, AllocError>
    ensures { let q = search_question_seen question.now in
        IfOk result (IsSearchAnswer (form_seen form) sessions.now q exploration.now) }
{
    match form {
        AnswerForm::Plain => lines_answer(alloc, sessions, question, exploration, false),
        AnswerForm::Summary => lines_answer(alloc, sessions, question, exploration, true),
        AnswerForm::Json => json_answer(alloc, sessions, question, exploration),
    }
}
