// The entries of random runs of a program.
ghost use Rattle.std.specs.Prelude.{IfOk};
ghost use Rattle.tn_program.specs.Views.{program_of};
ghost use Rattle.tn_search.specs.RandomRuns.{IsRandomExploration, IsRandomPlan};

use crate::exploration::{ListingOrder, SearchPlan, state_after};
use crate::process_sink::ProcessSink;
use crate::search_sink::SearchSink;
use crate::total_sink::TotalSink;
use std::alloc::{AllocError, Allocator};
use tn_explore::Exploration;
use tn_messages::{AllRuns, KeptListings};
use tn_program::Program;
use tn_random_run::{RandomPlan, random_search};
use tn_trace::pass_picks;

/// The entries of random runs, by what a state keeps of messages.
fn random_by<A: Allocator + Copy, K: SearchSink<A> + Drop>(
    alloc: A,
    program: &Program<A>,
    plan: &SearchPlan<'_>,
    runs: usize,
    seed: u64,
) -> Result<Exploration<A, KeptListings<A>>, AllocError>
    ensures { let p = program_of program.now in let s = plan.now in IfOk result
        (IsRandomExploration K.is_by_process p s.before.now s.places.now runs seed s.max_states) }
{
    let first = state_after::<A, K, AllRuns>(alloc, program, plan.before, plan.places)?;
    let picks = pass_picks(alloc)?;
    let random = RandomPlan {
        runs,
        seed,
        max_states: plan.max_states,
    };
    random_search(alloc, program, &first, &picks, &random)
}

/// The entries of so many random runs of a program, which begin as the plan says: those of the runs to rest, each of
/// another listing. All runs together go through at most as many states as the plan has, and one that would go through
/// more is cut off. The entries are not complete.
///
/// # Errors
///
/// AllocError where memory was refused.
pub fn random_program<A: Allocator + Copy>(
    alloc: A,
    program: &Program<A>,
    plan: &SearchPlan<'_>,
    runs: usize,
    seed: u64,
) -> Result<Exploration<A, KeptListings<A>>, AllocError>
    ensures { IfOk result (IsRandomPlan (program_of program.now) plan.now runs seed) }
{
    match plan.order {
        ListingOrder::Total => random_by::<A, TotalSink<A>>(alloc, program, plan, runs, seed),
        ListingOrder::ByProcess => random_by::<A, ProcessSink<A>>(alloc, program, plan, runs, seed),
    }
}
