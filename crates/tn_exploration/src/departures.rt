// The move by which the run that begins with the longest prefix departs from a trace that no run shows.
ghost use Rattle.std.specs.Prelude.{◌≡◌, ◌++◌, ◌&&◌, IfOk, None, OnOk, codes, map, not};
ghost use Rattle.std.specs.Option.{option_map};
ghost use Rattle.def_departure.specs.Departures.{departure_of, departure_text, departure_unless};
ghost use Rattle.def_departure.specs.Departures.{first_name, last_move_text};
ghost use Rattle.tn_program.specs.Views.{program_of};
ghost use Rattle.tn_answers.specs.AnswerViews.{session_name_seen};
ghost use Rattle.tn_answers.specs.SearchAnswers.{form_seen, search_question_seen};
ghost use Rattle.tn_comparison.specs.Matches.{trace_question_seen};
ghost use Rattle.tn_explore.specs.Searches.{answer_entries};
ghost use Rattle.tn_messages.specs.MessageViews.{kept_seen};
ghost use Rattle.tn_exploration.specs.Searches.{EndsAs, departure_seen};

use std::alloc::{AllocError, Allocator, Global};
use tn_answers::{AnswerForm, SearchAnswer, SearchQuestion, SessionName};
use tn_comparison::{TraceQuestion, longest_prefix};
use tn_explain::{Filter, put_account};
use tn_explore::Exploration;
use tn_messages::{KeptListings, RunFilter};
use tn_moves::Plan;
use tn_program::Program;

/// Whether an answer has a run that shows its trace.
pub(crate) fn has_run<A: Allocator>(answer: &SearchAnswer<A>) -> bool
    ensures { result ≡ (answer.now.is_settled && not answer.now.is_unmet) }
{
    answer.is_settled && !answer.is_unmet
}

/// The journal of the run that begins with the longest prefix of a trace, where it doesn't begin the trace any more.
fn departure_by<A: Allocator + Copy>(
    alloc: A,
    trace: &TraceQuestion<Global>,
    exploration: &Exploration<A, KeptListings<A>>,
) -> Result<Option<Vec<u32, A>>, AllocError>
    ensures { let es = answer_entries kept_seen exploration.now.answers.entries in
        IfOk result (λ o. departure_seen o ≡ departure_unless None (trace_question_seen trace.now) es) }
{
    let Some(prefix) = longest_prefix(alloc, &trace.messages, &exploration.answers)? else {
        return Ok(None);
    };
    if trace.is_admitted(alloc, prefix.by.kept)? {
        return Ok(None);
    }
    let mut journal = Vec::new(alloc);
    journal.extend_from_slice(prefix.by.journal)?;
    Ok(Some(journal))
}

/// The journal of that run, where a trace is asked about and no run of an exploration shows it.
pub(crate) fn departure_of<A: Allocator + Copy>(
    alloc: A,
    question: &SearchQuestion<'_, Global>,
    exploration: &Exploration<A, KeptListings<A>>,
    answer: &SearchAnswer<A>,
) -> Result<Option<Vec<u32, A>>, AllocError>
    ensures { let q = search_question_seen question.now in
        let es = answer_entries kept_seen exploration.now.answers.entries in
        EndsAs q es exploration.now.is_complete answer.now → IfOk result (λ o. departure_seen o ≡ departure_of q es) }
{
    match question {
        SearchQuestion::Patterns(_) => Ok(None),
        SearchQuestion::Trace(trace) => {
            if has_run(answer) {
                Ok(None)
            } else {
                departure_by(alloc, trace, exploration)
            }
        }
    }
}

/// The name of the first of some sessions.
fn first_name<A: Allocator>(names: &[SessionName<A>]) -> Option<&str>
    ensures { option_map (λ s. s.now) result ≡ first_name (map session_name_seen names.now) }
{
    match names.first() {
        Some(session) => Some(session.name.text()),
        None => None,
    }
}

/// Appends what `explain` says of the last move of a journal, about the first session.
fn put_last_move<A: Allocator + Copy>(
    alloc: A,
    program: &Program<A>,
    names: &[SessionName<A>],
    journal: &[u32],
    text: &mut Vec<u8, A>,
) -> Result<(), AllocError>
    ensures { let name = first_name (map session_name_seen names.now) in let p = program_of program.now in
        OnOk result (text.new.items ≡ text.old.items ++ codes "== explained\n" ++ last_move_text name p journal.now) }
{
    text.extend_from_slice(b"== explained\n")?;
    let filter = Filter {
        session: first_name(names),
        move_number: Some(journal.len() as u64),
        node: false,
    };
    put_account(alloc, program, &Plan::Picks(journal), &filter, text)
}

/// Appends the explanation of the last move of a run that departs, where there is one and lines are for a reader.
pub(crate) fn put_departure<A: Allocator + Copy>(
    alloc: A,
    program: &Program<A>,
    names: &[SessionName<A>],
    form: AnswerForm,
    departure: &Option<Vec<u32, A>>,
    text: &mut Vec<u8, A>,
) -> Result<(), AllocError>
    ensures { let ss = map session_name_seen names.now in let p = program_of program.now in OnOk result
        (text.new.items ≡ text.old.items ++ departure_text (form_seen form) ss p (departure_seen departure.now)) }
{
    let Some(journal) = departure else {
        return Ok(());
    };
    match form {
        AnswerForm::Json => Ok(()),
        AnswerForm::Plain | AnswerForm::Summary => put_last_move(
            alloc, program, names, journal, text,
        ),
    }
}
