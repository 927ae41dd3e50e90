// The greedy run of a program.
ghost use Rattle.std.specs.Prelude.{IfOk};
ghost use Rattle.tn_explore.specs.Query.{Query};
ghost use Rattle.tn_program.specs.Views.{program_of};
ghost use Rattle.tn_search.specs.GreedyRuns.{IsOnlyEntry, IsGreedyExploration, IsGreedyPlan};
ghost use Rattle.tn_search.specs.States.{IsStateFor, state_journal};

use crate::exploration::{ListingOrder, SearchPlan, state_after};
use crate::process_sink::ProcessSink;
use crate::program_state::ProgramState;
use crate::search_sink::SearchSink;
use crate::total_sink::TotalSink;
use indexmap::IndexMap;
use std::alloc::{AllocError, Allocator};
use tn_explore::{Exploration, SearchState};
use tn_greedy_run::greedy_run;
use tn_messages::{KeptListings, RunFilter};
use tn_program::Program;
use tn_trace::pass_picks;

/// What is kept of a state's run as the only answer, where so many moves were made before.
fn only_answer<A: Allocator + Copy, K: SearchSink<A> + Drop, F: RunFilter<A>>(
    alloc: A,
    state: &ProgramState<A, K, F>,
    before: usize,
) -> Result<Exploration<A, KeptListings<A>>, AllocError>
    ensures { IfOk result (λ e. (x : Program A) (a : Query) → IsStateFor K.keeps K.is_by_process x state.now a →
        IsOnlyEntry a (state_journal state.now) before e) }
{
    let kept = state.observe(alloc)?;
    let journal = state.copy_journal(alloc)?;
    let states = journal.len().saturating_sub(before) + 1;
    let mut answers = IndexMap::new(alloc);
    answers.insert(kept, journal)?;
    Ok(Exploration {
        answers,
        states,
        is_complete: false,
    })
}

/// The greedy run, by what a state keeps of messages.
fn greedy_by<A: Allocator + Copy, K: SearchSink<A> + Drop, F: RunFilter<A>>(
    alloc: A,
    program: &Program<A>,
    filter: &F,
    plan: &SearchPlan<'_>,
) -> Result<Exploration<A, KeptListings<A>>, AllocError>
    ensures { let p = program_of program.now in let admits = F.admits filter.now in IfOk result
        (IsGreedyExploration admits K.is_by_process p plan.now.before.now plan.now.places.now plan.now.max_states) }
{
    let first = state_after::<A, K, F>(alloc, program, plan.before, plan.places)?;
    let before = first.run.journal().len();
    let picks = pass_picks(alloc)?;
    let moves = plan.max_states.saturating_sub(1);
    let last = greedy_run(alloc, program, filter, first, &picks, moves)?;
    only_answer(alloc, &last, before)
}

/// The greedy run of a program that the plan says: at each move the first pick after which what is kept is admitted. It
/// is the only answer, and not complete.
///
/// # Errors
///
/// AllocError where memory was refused.
pub fn greedy_program<A: Allocator + Copy, F: RunFilter<A>>(
    alloc: A,
    program: &Program<A>,
    filter: &F,
    plan: &SearchPlan<'_>,
) -> Result<Exploration<A, KeptListings<A>>, AllocError>
    ensures { IfOk result (IsGreedyPlan (F.admits filter.now) (program_of program.now) plan.now) }
{
    match plan.order {
        ListingOrder::Total => greedy_by::<A, TotalSink<A>, F>(alloc, program, filter, plan),
        ListingOrder::ByProcess => greedy_by::<A, ProcessSink<A>, F>(alloc, program, filter, plan),
    }
}
