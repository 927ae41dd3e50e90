// A move by a pick that a number draws.
ghost use Rattle.std.specs.Prelude.{◌≡◌, IfOk};
ghost use Rattle.tn_explore.specs.Query.{Query};
ghost use Rattle.tn_explore.specs.SearchStates.{HasAllMoves};
ghost use Rattle.def_random_run.specs.RandomRuns.{pick_at};
ghost use Rattle.tn_random_run.specs.RandomStates.{MovesBy, AreMovingFor, IsMoveOf};

use std::alloc::{AllocError, Allocator};
use tn_explore::SearchState;

/// Whether a state moves by a pick, where all others than these are idle.
fn is_moving<A: Allocator + Copy, S: SearchState<A>>(
    context: &S::Context,
    state: &S,
    others: &[u32],
    pick: u32,
) -> Result<bool, AllocError>
    ensures { IfOk result (λ moved. (a : Query) → HasAllMoves S.journal (S.is_of context.now) state.now others.now →
        S.is_of context.now state.now a → MovesBy a (S.journal state.now) pick moved) }
{
    if !others.contains(&pick) {
        return Ok(false);
    }
    let mut after = state.share()?;
    after.advance(context, pick)
}

/// Those of some picks that move, in their order.
pub(crate) fn moving_among<A: Allocator + Copy, S: SearchState<A>>(
    alloc: A,
    context: &S::Context,
    state: &S,
    picks: &[u32],
) -> Result<Vec<u32, A>, AllocError>
    ensures { IfOk result (λ v. (a : Query) → S.is_of context.now state.now a →
        AreMovingFor a picks.now (S.journal state.now) v.items) }
{
    let all = state.picks(alloc, context, false)?;
    let mut moving = Vec::new(alloc);
    for pick in picks {
        if is_moving(context, state, &all, *pick)? {
            moving.push(*pick)?;
        }
    }
    Ok(moving)
}

/// The one of some picks at the place that a number gives, modulo their count; None where there are none.
fn pick_by_number(moving: &[u32], number: u64) -> Option<u32>
    ensures { result ≡ pick_at moving.now number }
{
    if moving.is_empty() {
        return None;
    }
    let place = number % moving.len() as u64;
    Some(moving[place as usize])
}

/// Moves a state by the one of some picks that a number draws among those that move: whether there is one.
pub(crate) fn advance_by<A: Allocator + Copy, S: SearchState<A>>(
    alloc: A,
    context: &S::Context,
    state: &mut S,
    picks: &[u32],
    number: u64,
) -> Result<bool, AllocError>
    ensures { IfOk result (λ moved. (a : Query) → S.is_of context.now state.old a →
        IsMoveOf S.journal (S.is_of context.now) a picks.now number state.old state.new moved) }
{
    let moving = moving_among(alloc, context, state, picks)?;
    match pick_by_number(&moving, number) {
        Some(pick) => state.advance(context, pick),
        None => Ok(false),
    }
}
