// Pairs of pids.
ghost use Rattle.std.specs.Prelude.{◌≡◌, IfOk, find, map, option_map};
ghost use Rattle.def_renaming.specs.Renaming.{has_either, is_pair, with_pair};
ghost use Rattle.tn_renaming.specs.Pairs.{LeavesPairs, pair_seen, pairs_seen};

use std::alloc::{AllocError, Allocator};

/// A pid of a trace, and the pid of the run that replaces it.
#[derive(Clone, Copy, Debug, PartialEq, Eq)]
pub struct PidPair {
    pub there: u32,
    pub here: u32,
}

/// Whether the pair has one of the two pids, on its side.
fn has_either(pair: PidPair, there: u32, here: u32) -> bool
    ensures { result ≡ has_either there here (pair_seen pair) }
{
    pair.there == there || pair.here == here
}

/// Whether it is the pair of these two pids.
fn is_pair(pair: PidPair, there: u32, here: u32) -> bool
    ensures { result ≡ is_pair there here (pair_seen pair) }
{
    pair.there == there && pair.here == here
}

/// The first pair that has one of the two pids, on its side.
fn pair_with(pairs: &[PidPair], there: u32, here: u32) -> Option<PidPair>
    ensures { option_map pair_seen result ≡ find (has_either there here) (map pair_seen pairs.now) }
{
    for pair in pairs {
        if has_either(*pair, there, here) {
            return Some(*pair);
        }
    }
    None
}

/// Adds a pair unless it is there. Says whether neither pid has another partner.
pub(crate) fn join<A: Allocator>(
    pairs: &mut Vec<PidPair, A>,
    there: u32,
    here: u32,
) -> Result<bool, AllocError>
    ensures { let old = pairs_seen pairs.old in
        IfOk result (λ b. LeavesPairs old (with_pair old there here) b (pairs_seen pairs.new)) }
{
    match pair_with(pairs.as_slice(), there, here) {
        Some(pair) => Ok(is_pair(pair, there, here)),
        None => {
            pairs.push(PidPair { there, here })?;
            Ok(true)
        }
    }
}
