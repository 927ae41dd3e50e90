// A run that shows a trace by process, found by the trace's own order.
ghost use Rattle.std.specs.Prelude.{◌≡◌, IfOk, false, map};
ghost use Rattle.std.specs.Option.{option_map};
ghost use Rattle.tn_program.specs.Views.{program_of};
ghost use Rattle.tn_answers.specs.AnswerViews.{session_name_seen};
ghost use Rattle.tn_comparison.specs.Matches.{trace_question_seen};
ghost use Rattle.tn_answers.specs.SearchAnswers.{form_seen};
ghost use Rattle.tn_explore.specs.Searches.{answer_entries};
ghost use Rattle.tn_messages.specs.MessageViews.{kept_seen};
ghost use Rattle.def_compare.specs.Entries.{possible_by};
ghost use Rattle.tn_exploration.specs.Searches.{IsRunBySearch, IsRunInOrder, IsTextInOrder};
ghost use Rattle.tn_exploration.specs.Searches.{run_in_order_seen, run_of_match, search_text_seen, text_with_run};
ghost use Rattle.tn_search.specs.States.{is_by_process};

use crate::departures::has_run;
use std::alloc::{AllocError, Allocator, Global};
use tn_answers::{AnswerForm, SearchAnswer, SearchQuestion, SessionName, search_answer};
use tn_comparison::{TraceQuestion, possible_by};
use tn_explore::Exploration;
use tn_messages::KeptListings;
use tn_program::Program;
use tn_search::{ListingOrder, SearchPlan, explore_program, greedy_program};

/// A run whose messages are in the order of a trace.
#[derive(Drop)]
pub(crate) struct RunInOrder<A: Allocator> {
    /// Its picks.
    journal: Vec<u32, A>,
    /// How many states were met before it was found.
    states: usize,
}

/// The run of the first of some answers that shows the trace.
fn run_among<A: Allocator + Copy>(
    alloc: A,
    trace: &TraceQuestion<Global>,
    exploration: &Exploration<A, KeptListings<A>>,
) -> Result<Option<RunInOrder<A>>, AllocError>
    ensures { let a = trace_question_seen trace.now in let e = exploration.now in
        let es = answer_entries kept_seen e.answers.entries in
        IfOk result (λ o. option_map run_in_order_seen o ≡ run_of_match (possible_by a es) e.states) }
{
    let Some(found) = possible_by(alloc, trace, &exploration.answers)? else {
        return Ok(None);
    };
    let mut journal = Vec::new(alloc);
    journal.extend_from_slice(found.journal)?;
    Ok(Some(RunInOrder {
        journal,
        states: exploration.states,
    }))
}

/// The first run that a search in total order finds for the trace, which leaves out no pick.
fn run_by_search<A: Allocator + Copy>(
    alloc: A,
    program: &Program<A>,
    trace: &TraceQuestion<Global>,
    plan: &SearchPlan<'_>,
) -> Result<Option<RunInOrder<A>>, AllocError>
    ensures { let a = trace_question_seen trace.now in let p = program_of program.now in let s = plan.now in
        is_by_process s.order ≡ false → s.reduces ≡ false → IfOk result (λ o.
        IsRunBySearch a p s.before.now s.places.now s.max_states (option_map run_in_order_seen o)) }
{
    let exploration = explore_program(alloc, program, trace, plan)?;
    run_among(alloc, trace, &exploration)
}

/// The greedy run, where it shows the trace in its own order; else the first run that a search in total order finds.
fn run_in_order<A: Allocator + Copy>(
    alloc: A,
    program: &Program<A>,
    trace: &TraceQuestion<Global>,
    plan: &SearchPlan<'_>,
) -> Result<Option<RunInOrder<A>>, AllocError>
    ensures { let a = trace_question_seen trace.now in let p = program_of program.now in IfOk result (λ o.
        IsRunInOrder a p plan.now.before.now plan.now.places.now plan.now.max_states (option_map run_in_order_seen o)) }
{
    let plan = SearchPlan {
        before: plan.before,
        order: ListingOrder::Total,
        places: plan.places,
        max_states: plan.max_states,
        reduces: false,
    };
    let greedy = greedy_program(alloc, program, trace, &plan)?;
    let run = run_among(alloc, trace, &greedy)?;
    if run.is_some() {
        return Ok(run);
    }
    run_by_search(alloc, program, trace, &plan)
}

/// What an exploration answers, where one of its runs shows the trace.
fn answer_with_run<A: Allocator + Copy>(
    alloc: A,
    names: &[SessionName<A>],
    trace: &TraceQuestion<Global>,
    exploration: &Exploration<A, KeptListings<A>>,
    form: AnswerForm,
) -> Result<Option<SearchAnswer<A>>, AllocError>
    ensures { let e = exploration.now in let es = answer_entries kept_seen e.answers.entries in
        let ss = map session_name_seen names.now in IfOk result (λ o. option_map search_text_seen o ≡
        text_with_run (form_seen form) ss (trace_question_seen trace.now) es e.states e.is_complete) }
{
    let answer = search_answer(
        alloc,
        names,
        &SearchQuestion::Trace(trace),
        exploration,
        form,
    )?;
    if has_run(&answer) {
        Ok(Some(answer))
    } else {
        Ok(None)
    }
}

/// The answer of a run that shows the trace by process, found by the trace's own order; None where there is none. It
/// has how many states were met before the run was found.
pub(crate) fn answer_in_order<A: Allocator + Copy>(
    alloc: A,
    program: &Program<A>,
    names: &[SessionName<A>],
    trace: &TraceQuestion<Global>,
    plan: &SearchPlan<'_>,
    form: AnswerForm,
) -> Result<Option<SearchAnswer<A>>, AllocError>
    ensures { let a = trace_question_seen trace.now in let p = program_of program.now in
        let ss = map session_name_seen names.now in IfOk result (λ o. IsTextInOrder (form_seen form) ss a p
        plan.now.before.now plan.now.places.now plan.now.max_states (option_map search_text_seen o)) }
{
    let Some(run) = run_in_order(alloc, program, trace, plan)? else {
        return Ok(None);
    };
    let plan = SearchPlan {
        before: &run.journal,
        order: ListingOrder::ByProcess,
        places: plan.places,
        max_states: plan.max_states,
        reduces: false,
    };
    let after = explore_program(alloc, program, trace, &plan)?;
    let exploration = Exploration {
        answers: after.answers,
        states: run.states,
        is_complete: false,
    };
    answer_with_run(alloc, names, trace, &exploration, form)
}
