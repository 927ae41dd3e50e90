// The text of a list of picks.
ghost use Rattle.std.specs.Prelude.{◌≡◌, OnOk, OnErr};
ghost use Rattle.complete_scripts.specs.Agreement.{Agree, answer_of};
ghost use Rattle.complete_runs.specs.Alike.{picks_fault_seen};

use std::alloc::{AllocError, Allocator};
use tn_listing::PicksFault;

/// `tn_listing::read_picks` has one answer.
pub fn read_picks<A: Allocator>(
    alloc: A,
    same_alloc: A,
    one: &[u8],
    other: &[u8],
) -> (
    Result<Vec<u32, A>, PicksFault>,
    Result<Vec<u32, A>, PicksFault>,
)
    requires { one.now ≡ other.now }
    ensures { let told = answer_of (λ v. v.items) picks_fault_seen in Agree (told result.0) (told result.1) }
{
    let first = tn_listing::read_picks(alloc, one);
    let second = tn_listing::read_picks(same_alloc, other);
    (first, second)
}

/// `tn_listing::write_picks` has one answer. Where memory is refused, the text is as it was.
pub fn write_picks<A: Allocator>(
    one: &[u32],
    other: &[u32],
    out: &mut Vec<u8, A>,
    same_out: &mut Vec<u8, A>,
) -> (Result<(), AllocError>, Result<(), AllocError>)
    requires picks { one.now ≡ other.now }
    requires outs { out.old.items ≡ same_out.old.items }
    ensures ok { OnOk result.0 (OnOk result.1 (out.new.items ≡ same_out.new.items)) }
    ensures err { OnErr result.0 (out.new.items ≡ out.old.items) }
{
    let first = tn_listing::write_picks(one, out);
    let second = tn_listing::write_picks(other, same_out);
    (first, second)
}
