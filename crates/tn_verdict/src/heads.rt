// Why a head doesn't match the list that it is held against.
ghost use Rattle.std.specs.Prelude.{◌≡◌, IfOk};
ghost use Rattle.def_explain.specs.Heads as heads;
ghost use Rattle.tn_mismatch.specs.Views.{mismatch_seen};
ghost use Rattle.tn_verdict.specs.Reasons.{head_reason_of};
ghost use Rattle.tn_verdict.specs.Views.{head_reason_seen, head_reasons_seen};

use crate::reason::HeadReason;
use bumpalo::Bump;
use std::alloc::{AllocError, Allocator};
use tn_guard::ListView;
use tn_mismatch::{Mismatch, first_mismatch};
use tn_spec::Head;

/// Why the head doesn't match the list of these elements; None where it does.
pub fn head_reason<'a, A: Allocator>(
    arena: &'a Bump<A>,
    head: &'a Head<A>,
    list: ListView<'a, A>,
) -> Result<Option<HeadReason<'a, A>>, AllocError>
    ensures { IfOk result (λ r. head_reasons_seen r ≡ head_reason_of head.now list.entry) }
{
    match first_mismatch(arena, head, list)? {
        Some(mismatch) => Ok(Some(reason_by_place(mismatch))),
        None => Ok(None),
    }
}

/// By the place of the first difference.
fn reason_by_place<'a, A: Allocator>(mismatch: Mismatch<'a, A>) -> HeadReason<'a, A>
    ensures { head_reason_seen result ≡ heads.by_place (mismatch_seen mismatch.entry) }
{
    let place = mismatch.place;
    if place.is_empty() {
        return HeadReason::OtherLength;
    }
    HeadReason::AfterMatching {
        count: place[0],
        mismatch: Mismatch {
            place: &place[1..],
            part: mismatch.part,
            value: mismatch.value,
        },
    }
}
