// Refusals: what the faults of readers are, and the line.
ghost use Rattle.std.specs.Prelude.{◌≡◌, IfOk};

use std::alloc::{AllocError, Allocator};
use tn_program::RuleFault;
use tn_refusal::{Denial, Refusal};
use tn_script::ScriptFault;

/// `tn_refusal::denial_of_script` has one answer.
pub fn denial_of_script(fault: ScriptFault) -> (Denial, Denial)
    ensures { result.0 ≡ result.1 }
{
    let first = tn_refusal::denial_of_script(fault);
    let second = tn_refusal::denial_of_script(fault);
    (first, second)
}

/// `tn_refusal::denial_of_rules` has one answer.
pub fn denial_of_rules(fault: RuleFault) -> (Denial, Denial)
    ensures { result.0 ≡ result.1 }
{
    let first = tn_refusal::denial_of_rules(fault);
    let second = tn_refusal::denial_of_rules(fault);
    (first, second)
}

/// `tn_refusal::refusal_bytes` has one answer.
pub fn refusal_bytes<A: Allocator>(
    alloc: A,
    same_alloc: A,
    refusal: Refusal,
) -> (
    Result<Vec<u8, A>, AllocError>,
    Result<Vec<u8, A>, AllocError>,
)
    ensures { IfOk result.0 (λ v. IfOk result.1 (λ w. v.items ≡ w.items)) }
{
    let first = tn_refusal::refusal_bytes(alloc, refusal);
    let second = tn_refusal::refusal_bytes(same_alloc, refusal);
    (first, second)
}
