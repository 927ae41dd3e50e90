// Pairs of pids.
ghost use Rattle.std.specs.Prelude.{◌≡◌, IfOk, map, option_map};
ghost use Rattle.tn_renaming.specs.Pairs.{lent_terms_seen, pairs_seen};

use std::alloc::{AllocError, Allocator};
use tn_renaming::PidPair;
use tn_term::Term;

/// `tn_renaming::first_renaming` has one answer.
pub fn first_renaming<A: Allocator + Copy, B: Allocator, C: Allocator>(
    alloc: A,
    one: &[Vec<&Term<B>, A>],
    other: &[Vec<&Term<B>, A>],
    lists: &[Vec<&Term<C>, A>],
    again: &[Vec<&Term<C>, A>],
) -> (
    Result<Option<Vec<PidPair, A>>, AllocError>,
    Result<Option<Vec<PidPair, A>>, AllocError>,
)
    requires groups { map lent_terms_seen one.now ≡ map lent_terms_seen other.now }
    requires lists { map lent_terms_seen lists.now ≡ map lent_terms_seen again.now }
    ensures { IfOk result.0 (λ x. IfOk result.1 (λ y. option_map pairs_seen x ≡ option_map pairs_seen y)) }
{
    (
        tn_renaming::first_renaming(alloc, one, lists),
        tn_renaming::first_renaming(alloc, other, again),
    )
}
