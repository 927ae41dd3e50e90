// The texts of searches, one after another.
ghost use Rattle.std.specs.Prelude.{◌≡◌, ◌&&◌, ◌||◌, ◌∷◌, [], IfOk, map};
ghost use Rattle.std.specs.Option.{option_map};
ghost use Rattle.tn_program.specs.Views.{program_of};
ghost use Rattle.def_compare.specs.Answers.{admits_for};
ghost use Rattle.tn_answers.specs.AnswerViews.{session_name_seen};
ghost use Rattle.tn_answers.specs.SearchAnswers.{form_seen, search_question_seen};
ghost use Rattle.tn_search.specs.States.{ExploresPlan, is_by_process};
ghost use Rattle.tn_exploration.specs.Requests.{AddsSearch, AddsSearches, groups_of};
ghost use Rattle.tn_exploration.specs.Searches.{IsAnswerBy, IsAnswerText, IsTextBefore, IsTextOfExploration};
ghost use Rattle.tn_exploration.specs.Searches.{IsTextOfRandomRuns, IsTextOfSearch};
ghost use Rattle.tn_exploration.specs.Searches.{departure_seen, search_text_seen, trace_by_process};

use crate::departures::{departure_of, put_departure};
use crate::in_order::answer_in_order;
use crate::request::{ExploreRequest, RandomRuns};
use crate::sessions::names_at;
use std::alloc::{AllocError, Allocator, Global};
use tn_answers::{AnswerForm, SearchAnswer, SearchQuestion, SessionName, search_answer};
use tn_explore::Exploration;
use tn_messages::{AllRuns, KeptListings};
use tn_program::Program;
use tn_search::{ListingOrder, SearchPlan, explore_program, random_program};

/// How searches ended: whether more states could change no answer, and whether one refutes a demand or has no run for
/// the trace.
#[derive(Clone, Copy)]
pub(crate) struct SearchEnd {
    pub(crate) is_settled: bool,
    pub(crate) is_unmet: bool,
}

/// The search that a question is about: each run is followed, or those that begin the trace.
fn explore_for<A: Allocator + Copy>(
    alloc: A,
    program: &Program<A>,
    question: &SearchQuestion<'_, Global>,
    plan: &SearchPlan<'_>,
) -> Result<Exploration<A, KeptListings<A>>, AllocError>
    ensures { let admits = admits_for (search_question_seen question.now) in
        IfOk result (ExploresPlan admits (program_of program.now) plan.now) }
{
    match question {
        SearchQuestion::Patterns(_) => explore_program(alloc, program, &AllRuns, plan),
        SearchQuestion::Trace(trace) => explore_program(alloc, program, *trace, plan),
    }
}

/// What is asked about some sessions.
#[derive(Drop)]
struct SearchTask<'a, A: Allocator> {
    names: &'a [SessionName<A>],
    question: &'a SearchQuestion<'a, Global>,
    plan: &'a SearchPlan<'a>,
    form: AnswerForm,
}

/// The answer of a run that shows the trace by its own order, where a trace is asked about by process; None where there
/// is no such run.
fn answer_before<A: Allocator + Copy>(
    alloc: A,
    program: &Program<A>,
    task: &SearchTask<'_, A>,
) -> Result<Option<SearchAnswer<A>>, AllocError>
    ensures { let k = task.now in let plan = k.plan.now in
        let trace = trace_by_process (search_question_seen k.question.now) (is_by_process plan.order) in
        let ss = map session_name_seen k.names.now in let p = program_of program.now in
        IfOk result (λ o. IsTextBefore (form_seen k.form) ss p plan.before.now plan.places.now plan.max_states
        trace (option_map search_text_seen o)) }
{
    match task.question {
        SearchQuestion::Patterns(_) => Ok(None),
        SearchQuestion::Trace(trace) => match task.plan.order {
            ListingOrder::Total => Ok(None),
            ListingOrder::ByProcess => {
                answer_in_order(alloc, program, task.names, trace, task.plan, task.form)
            }
        },
    }
}

/// What is answered, and the journal of the run that departs from the trace, where one does.
#[derive(Drop)]
struct AnswerWithDeparture<A: Allocator> {
    answer: SearchAnswer<A>,
    departure: Option<Vec<u32, A>>,
}

/// What an exploration answers.
fn answer_from<A: Allocator + Copy>(
    alloc: A,
    task: &SearchTask<'_, A>,
    exploration: &Exploration<A, KeptListings<A>>,
) -> Result<AnswerWithDeparture<A>, AllocError>
    ensures { let k = task.now in let q = search_question_seen k.question.now in
        let ss = map session_name_seen k.names.now in IfOk result (λ a. IsTextOfExploration (form_seen k.form) ss q
        exploration.now (search_text_seen a.answer) (departure_seen a.departure)) }
{
    let answer = search_answer(alloc, task.names, task.question, exploration, task.form)?;
    let departure = departure_of(alloc, task.question, exploration, &answer)?;
    Ok(AnswerWithDeparture { answer, departure })
}

/// What a search through all schedules of the plan answers.
fn answer_by_search<A: Allocator + Copy>(
    alloc: A,
    program: &Program<A>,
    task: &SearchTask<'_, A>,
) -> Result<AnswerWithDeparture<A>, AllocError>
    ensures { let k = task.now in let plan = k.plan.now in let b = is_by_process plan.order in
        let q = search_question_seen k.question.now in let ss = map session_name_seen k.names.now in
        IfOk result (λ a. IsTextOfSearch (form_seen k.form) ss q b plan.reduces (program_of program.now)
        plan.before.now plan.places.now plan.max_states (search_text_seen a.answer) (departure_seen a.departure)) }
{
    let exploration = explore_for(alloc, program, task.question, task.plan)?;
    answer_from(alloc, task, &exploration)
}

/// What is answered by a run in the order of a trace, or else by a search through all schedules of the plan.
fn answer_of<A: Allocator + Copy>(
    alloc: A,
    program: &Program<A>,
    task: &SearchTask<'_, A>,
) -> Result<AnswerWithDeparture<A>, AllocError>
    ensures { let k = task.now in let plan = k.plan.now in let b = is_by_process plan.order in
        let q = search_question_seen k.question.now in let ss = map session_name_seen k.names.now in
        IfOk result (λ a. IsAnswerText (form_seen k.form) ss q b plan.reduces (program_of program.now) plan.before.now
        plan.places.now plan.max_states (search_text_seen a.answer) (departure_seen a.departure)) }
{
    if let Some(answer) = answer_before(alloc, program, task)? {
        return Ok(AnswerWithDeparture {
            answer,
            departure: None,
        });
    }
    answer_by_search(alloc, program, task)
}

/// What random runs answer that begin as the plan says.
fn answer_by_random_runs<A: Allocator + Copy>(
    alloc: A,
    program: &Program<A>,
    task: &SearchTask<'_, A>,
    random: RandomRuns,
) -> Result<AnswerWithDeparture<A>, AllocError>
    ensures { let k = task.now in let plan = k.plan.now in let b = is_by_process plan.order in
        let q = search_question_seen k.question.now in let ss = map session_name_seen k.names.now in
        IfOk result (λ a. IsTextOfRandomRuns random (form_seen k.form) ss q b (program_of program.now) plan.before.now
        plan.places.now plan.max_states (search_text_seen a.answer) (departure_seen a.departure)) }
{
    let exploration = random_program(alloc, program, task.plan, random.runs, random.seed)?;
    answer_from(alloc, task, &exploration)
}

/// What is answered by random runs, where some are asked for, or else by all schedules of the plan.
fn answer_by<A: Allocator + Copy>(
    alloc: A,
    program: &Program<A>,
    task: &SearchTask<'_, A>,
    random: Option<RandomRuns>,
) -> Result<AnswerWithDeparture<A>, AllocError>
    ensures { let k = task.now in let plan = k.plan.now in let b = is_by_process plan.order in
        let q = search_question_seen k.question.now in let ss = map session_name_seen k.names.now in
        IfOk result (λ a. IsAnswerBy random (form_seen k.form) ss q b plan.reduces (program_of program.now)
        plan.before.now plan.places.now plan.max_states (search_text_seen a.answer) (departure_seen a.departure)) }
{
    match random {
        None => answer_of(alloc, program, task),
        Some(runs) => answer_by_random_runs(alloc, program, task, runs),
    }
}

/// Appends the text of a search about the sessions at some places, with the move by which a run departs from the trace.
fn put_search<A: Allocator + Copy>(
    alloc: A,
    program: &Program<A>,
    request: &ExploreRequest<'_>,
    before: &[u32],
    places: &[usize],
    text: &mut Vec<u8, A>,
) -> Result<SearchEnd, AllocError>
    ensures { IfOk result (AddsSearch request.now (program_of program.now) before.now places.now
        text.old.items text.new.items) }
{
    let names = names_at(alloc, program, places)?;
    let plan = SearchPlan {
        before,
        order: request.order,
        places,
        max_states: request.max_states,
        reduces: request.reduces,
    };
    let task = SearchTask {
        names: &names,
        question: &request.question,
        plan: &plan,
        form: request.form,
    };
    let AnswerWithDeparture { answer, departure } = answer_by(
        alloc,
        program,
        &task,
        request.random,
    )?;
    text.extend_from_slice(&answer.text)?;
    put_departure(alloc, program, &names, request.form, &departure, text)?;
    Ok(SearchEnd {
        is_settled: answer.is_settled,
        is_unmet: answer.is_unmet,
    })
}

/// Appends that of the session at a place.
fn put_one<A: Allocator + Copy>(
    alloc: A,
    program: &Program<A>,
    request: &ExploreRequest<'_>,
    before: &[u32],
    place: usize,
    text: &mut Vec<u8, A>,
) -> Result<SearchEnd, AllocError>
    ensures { IfOk result (AddsSearch request.now (program_of program.now) before.now (place ∷ [])
        text.old.items text.new.items) }
{
    let mut places = Vec::new(alloc);
    places.push(place)?;
    put_search(alloc, program, request, before, &places, text)
}

/// How both ended.
fn both(one: SearchEnd, other: SearchEnd) -> SearchEnd
    ensures settled { result.is_settled ≡ (one.is_settled && other.is_settled) }
    ensures unmet { result.is_unmet ≡ (one.is_unmet || other.is_unmet) }
{
    SearchEnd {
        is_settled: one.is_settled && other.is_settled,
        is_unmet: one.is_unmet || other.is_unmet,
    }
}

/// Appends those of the session at each of these places.
fn put_each<A: Allocator + Copy>(
    alloc: A,
    program: &Program<A>,
    request: &ExploreRequest<'_>,
    before: &[u32],
    places: &[usize],
    text: &mut Vec<u8, A>,
) -> Result<SearchEnd, AllocError>
    ensures { IfOk result (AddsSearches request.now (program_of program.now) before.now
        (map (λ n. n ∷ []) places.now) text.old.items text.new.items) }
{
    let mut all = SearchEnd {
        is_settled: true,
        is_unmet: false,
    };
    for place in places {
        let one = put_one(alloc, program, request, before, *place, text)?;
        all = both(all, one);
    }
    Ok(all)
}

/// Appends the texts of the searches about each session by itself; where there is none, of one about what moves.
pub(crate) fn put_groups<A: Allocator + Copy>(
    alloc: A,
    program: &Program<A>,
    request: &ExploreRequest<'_>,
    before: &[u32],
    places: &[usize],
    text: &mut Vec<u8, A>,
) -> Result<SearchEnd, AllocError>
    ensures { IfOk result (AddsSearches request.now (program_of program.now) before.now (groups_of places.now)
        text.old.items text.new.items) }
{
    if places.is_empty() {
        put_search(alloc, program, request, before, places, text)
    } else {
        put_each(alloc, program, request, before, places, text)
    }
}
