// The entries of several random runs.
ghost use Rattle.std.specs.Prelude.{◌≡◌, IfOk};
ghost use Rattle.def_random_run.specs.RandomEntries.{with_entry};
ghost use Rattle.tn_explore.specs.Query.{Query, entry_for};
ghost use Rattle.tn_explore.specs.Searches.{answer_entries};
ghost use Rattle.tn_random_run.specs.RandomStates.{IsRandomSearch, with_journal_for};

use crate::numbers::{mixture_of, seed_after};
use crate::pick::moving_among;
use crate::run::random_run;
use indexmap::IndexMap;
use std::alloc::{AllocError, Allocator};
use tn_explore::{Answers, Exploration, SearchState};

/// How many random runs there are, the seed of the first, and how many states they go through together at most.
#[derive(Clone, Copy)]
pub struct RandomPlan {
    /// How many runs there are.
    pub runs: usize,
    /// The seed of the first; the next run has the next seed.
    pub seed: u64,
    /// How many states they go through at most.
    pub max_states: usize,
}

/// Adds the entry of a state, where none keeps the same.
fn add_entry<A: Allocator + Copy, S: SearchState<A>>(
    alloc: A,
    state: &S,
    answers: &mut Answers<A, S::Observation>,
) -> Result<(), AllocError>
    ensures { IfOk result (λ _. (x : S.Context) (a : Query) → S.is_of x state.now a →
        answer_entries S.kept_seen answers.new.entries ≡
        with_entry (answer_entries S.kept_seen answers.old.entries) (entry_for a (S.journal state.now))) }
{
    let observation = state.observe(alloc)?;
    if answers.contains_key(&observation) {
        return Ok(());
    }
    let journal = state.copy_journal(alloc)?;
    answers.insert(observation, journal)?;
    Ok(())
}

/// Adds that of a state at rest: one after which none of the picks moves.
fn add_rest<A: Allocator + Copy, S: SearchState<A>>(
    alloc: A,
    context: &S::Context,
    state: &S,
    picks: &[u32],
    answers: &mut Answers<A, S::Observation>,
) -> Result<(), AllocError>
    ensures { IfOk result (λ _. (a : Query) → S.is_of context.now state.now a →
        answer_entries S.kept_seen answers.new.entries ≡
        with_journal_for a picks.now (answer_entries S.kept_seen answers.old.entries) (S.journal state.now)) }
{
    let moving = moving_among(alloc, context, state, picks)?;
    if !moving.is_empty() {
        return Ok(());
    }
    add_entry(alloc, state, answers)
}

/// The entries of several random runs from the first state on, by these picks. The search is not complete.
///
/// # Errors
///
/// AllocError where memory was refused.
pub fn random_search<A: Allocator + Copy, S: SearchState<A>>(
    alloc: A,
    context: &S::Context,
    first: &S,
    picks: &[u32],
    plan: &RandomPlan,
) -> Result<Exploration<A, S::Observation>, AllocError>
    ensures { IfOk result (λ e. (a : Query) → S.is_of context.now first.now a →
        IsRandomSearch a (S.journal first.now) picks.now plan.now
        (answer_entries S.kept_seen e.answers.entries) e.states e.is_complete) }
{
    let before = first.copy_journal(alloc)?.len();
    let mut answers = IndexMap::new(alloc);
    let mut states: usize = 0;
    let mut seed = plan.seed;
    for _ in 0..plan.runs {
        if states >= plan.max_states {
            return Ok(Exploration {
                answers,
                states,
                is_complete: false,
            });
        }
        let start = first.share()?;
        let moves = plan.max_states - states - 1;
        let last = random_run(alloc, context, start, picks, moves, mixture_of(seed))?;
        let made = last.copy_journal(alloc)?.len();
        states = states.saturating_add(made.saturating_sub(before) + 1);
        add_rest(alloc, context, &last, picks, &mut answers)?;
        seed = seed_after(seed);
    }
    Ok(Exploration {
        answers,
        states,
        is_complete: false,
    })
}
