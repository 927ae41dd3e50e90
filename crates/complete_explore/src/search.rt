// The search through all states.
ghost use Rattle.std.specs.Prelude.{◌≡◌, IfOk};
ghost use Rattle.def_run.specs.Run.{moves};
ghost use Rattle.tn_explore.specs.Query.{Query};
ghost use Rattle.tn_explore.specs.SearchStates.{FollowsAllBy};
ghost use Rattle.complete_explore.specs.Explorations.{ExploreAlike, IfBoth};

use std::alloc::{AllocError, Allocator};
use tn_explore::{Choice, Exploration, SearchState};

/// What a search answers, or refused memory.
type SearchResult<A, S> = Result<
    Option<Exploration<A, <S as SearchState<A>>::Observation>>,
    AllocError,
>;

/// `tn_explore::explore` has one answer where all states are tried and there is one: the same is kept, with journals
/// that are as long.
pub fn explore<A: Allocator + Copy, S: SearchState<A>>(
    alloc: A,
    contexts: (&S::Context, &S::Context),
    choice: &Choice<'_, S::Filter>,
    one: S,
    other: S,
    max_states: usize,
) -> (SearchResult<A, S>, SearchResult<A, S>)
    ensures { let x = contexts.entry.0.now in let y = contexts.entry.1.now in
        IfOk result.0 (λ o. IfOk result.1 (λ r. IfBoth o r (λ e f. (a : Query) →
        S.is_of x one a → S.is_of y other a → S.filters choice.now.filter.now a →
        FollowsAllBy choice.now.leaves_out a →
        S.journal one ≡ moves a.program a.before → S.journal other ≡ moves a.program a.before →
        ExploreAlike S.kept_seen e f))) }
{
    let first = tn_explore::explore(alloc, contexts.0, choice, one, max_states);
    let second = tn_explore::explore(alloc, contexts.1, choice, other, max_states);
    (first, second)
}
