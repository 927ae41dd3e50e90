// Where a head first differs from the list that is matched.
ghost use Rattle.std.specs.Prelude.{◌≡◌, IfOk};
ghost use Rattle.tn_spec.specs.Views.{head_seen};
ghost use Rattle.tn_head.specs.Matching.{list_seen};
ghost use Rattle.tn_mismatch.specs.Views.{mismatches_seen};

use bumpalo::Bump;
use std::alloc::{AllocError, Allocator};
use tn_guard::ListView;
use tn_mismatch::Mismatch;
use tn_spec::Head;

/// `tn_mismatch::first_mismatch` has one answer.
pub fn first_mismatch<'a, A: Allocator>(
    arena: &'a Bump<A>,
    one: &'a Head<A>,
    other: &'a Head<A>,
    list: ListView<'a, A>,
    again: ListView<'a, A>,
) -> (
    Result<Option<Mismatch<'a, A>>, AllocError>,
    Result<Option<Mismatch<'a, A>>, AllocError>,
)
    requires heads { head_seen one.now ≡ head_seen other.now }
    requires lists { list_seen list ≡ list_seen again }
    ensures { IfOk result.0 (λ m. IfOk result.1 (λ n. mismatches_seen m ≡ mismatches_seen n)) }
{
    (
        tn_mismatch::first_mismatch(arena, one, list),
        tn_mismatch::first_mismatch(arena, other, again),
    )
}
