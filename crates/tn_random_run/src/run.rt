// A random run: at each move one of the picks that move, drawn by a number.
ghost use Rattle.std.specs.Prelude.{IfOk};
ghost use Rattle.tn_explore.specs.Query.{Query};
ghost use Rattle.tn_random_run.specs.RandomStates.{IsRandomState};

use crate::numbers::{number_of, seed_after};
use crate::pick::advance_by;
use std::alloc::{AllocError, Allocator};
use tn_explore::SearchState;

/// The state after the random run of a seed from the first state on, by these picks, of so many moves at most. The time
/// of a move is that of trying the picks that move once.
///
/// # Errors
///
/// AllocError where memory was refused.
pub fn random_run<A: Allocator + Copy, S: SearchState<A>>(
    alloc: A,
    context: &S::Context,
    first: S,
    picks: &[u32],
    moves: usize,
    seed: u64,
) -> Result<S, AllocError>
    ensures { IfOk result (λ s. (a : Query) → S.is_of context.now first a →
        IsRandomState S.journal (S.is_of context.now) a picks.now moves seed first s) }
{
    let mut state = first;
    let mut last = seed;
    for _ in 0..moves {
        last = seed_after(last);
        if !advance_by(alloc, context, &mut state, picks, number_of(last))? {
            return Ok(state);
        }
    }
    Ok(state)
}
