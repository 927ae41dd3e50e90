// The greedy run: at each move the first pick after which what is kept is admitted.
ghost use Rattle.std.specs.Prelude.{IfOk};
ghost use Rattle.tn_explore.specs.Query.{Query};
ghost use Rattle.tn_greedy_run.specs.GreedyRuns.{IsAfterPick, IsNextState, IsGreedyState};

use std::alloc::{AllocError, Allocator};
use tn_explore::SearchState;

/// The state after a pick, where the pick moves and what is kept then is admitted.
fn state_after<A: Allocator + Copy, S: SearchState<A>>(
    alloc: A,
    context: &S::Context,
    filter: &S::Filter,
    state: &S,
    pick: u32,
) -> Result<Option<S>, AllocError>
    ensures { IfOk result (λ o. (a : Query) → S.filters filter.now a → S.is_of context.now state.now a →
        IsAfterPick S.journal (S.is_of context.now) a pick state.now o) }
{
    let mut after = state.share()?;
    if !after.advance(context, pick)? {
        return Ok(None);
    }
    if !after.is_admitted(alloc, filter)? {
        return Ok(None);
    }
    Ok(Some(after))
}

/// The state after the next one of some picks; None where no pick is the next one.
fn next_state<A: Allocator + Copy, S: SearchState<A>>(
    alloc: A,
    context: &S::Context,
    filter: &S::Filter,
    state: &S,
    picks: &[u32],
) -> Result<Option<S>, AllocError>
    ensures { IfOk result (λ o. (a : Query) → S.filters filter.now a → S.is_of context.now state.now a →
        IsNextState S.journal (S.is_of context.now) a picks.now state.now o) }
{
    let moving = state.picks(alloc, context, false)?;
    for pick in picks {
        if moving.contains(pick) {
            let after = state_after(alloc, context, filter, state, *pick)?;
            if after.is_some() {
                return Ok(after);
            }
        }
    }
    Ok(None)
}

/// The state after the greedy run from the first state on, by these picks, of so many moves at most. It keeps two
/// states at a time, and the time of a move is that of trying the picks that move once.
///
/// # Errors
///
/// AllocError where memory was refused.
pub fn greedy_run<A: Allocator + Copy, S: SearchState<A>>(
    alloc: A,
    context: &S::Context,
    filter: &S::Filter,
    first: S,
    picks: &[u32],
    moves: usize,
) -> Result<S, AllocError>
    ensures { IfOk result (λ s. (a : Query) → S.filters filter.now a → S.is_of context.now first a →
        IsGreedyState S.journal (S.is_of context.now) a picks.now moves first s) }
{
    let mut state = first;
    for _ in 0..moves {
        match next_state(alloc, context, filter, &state, picks)? {
            Some(next) => state = next,
            None => return Ok(state),
        }
    }
    Ok(state)
}
