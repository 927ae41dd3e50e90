// The text of what an exploration answers.
ghost use Rattle.std.specs.Prelude.{◌≡◌, map, IfOk};
ghost use Rattle.tn_messages.specs.MessageViews.{kept_seen};
ghost use Rattle.tn_explore.specs.Searches.{answer_entries};
ghost use Rattle.tn_answers.specs.AnswerViews.{session_name_seen};
ghost use Rattle.tn_answers.specs.SearchAnswers.{search_question_seen};

use std::alloc::{AllocError, Allocator};
use tn_answers::{AnswerForm, SearchAnswer, SearchQuestion, SessionName};
use tn_explore::Exploration;
use tn_messages::KeptListings;

/// `tn_answers::search_answer` has one answer.
pub fn search_answer<A: Allocator + Copy, P: Allocator>(
    alloc: A,
    sessions: (&[SessionName<A>], &[SessionName<A>]),
    questions: (&SearchQuestion<'_, P>, &SearchQuestion<'_, P>),
    one: &Exploration<A, KeptListings<A>>,
    other: &Exploration<A, KeptListings<A>>,
    form: AnswerForm,
) -> (
    Result<SearchAnswer<A>, AllocError>,
    Result<SearchAnswer<A>, AllocError>,
)
    requires sessions { map session_name_seen sessions.0.now ≡ map session_name_seen sessions.1.now }
    requires questions { search_question_seen questions.0.now ≡ search_question_seen questions.1.now }
    requires entries { answer_entries kept_seen one.now.answers.entries ≡
        answer_entries kept_seen other.now.answers.entries }
    requires states { one.now.states ≡ other.now.states }
    requires complete { one.now.is_complete ≡ other.now.is_complete }
    ensures text { IfOk result.0 (λ v. IfOk result.1 (λ w. v.text.items ≡ w.text.items)) }
    ensures unmet { IfOk result.0 (λ v. IfOk result.1 (λ w. v.is_unmet ≡ w.is_unmet)) }
    ensures settled { IfOk result.0 (λ v. IfOk result.1 (λ w. v.is_settled ≡ w.is_settled)) }
{
    let first = tn_answers::search_answer(alloc, sessions.0, questions.0, one, form);
    let second = tn_answers::search_answer(alloc, sessions.1, questions.1, other, form);
    (first, second)
}
