// What the output of a command must be.
ghost use Rattle.std.specs.Prelude.{◌≡◌, IfOk};

use std::alloc::{AllocError, Global};
use tn_expectation::Expectation;

/// `tn_expectation::Expectation::meets` has one answer.
pub fn meets(expectation: &Expectation<'_>, output: &[u8]) -> (bool, bool)
    ensures { result.0 ≡ result.1 }
{
    let first = expectation.meets(output);
    let second = expectation.meets(output);
    (first, second)
}

/// `tn_expectation::listing_head` has one answer for one name.
pub fn listing_head(
    alloc: Global,
    name: &str,
) -> (Result<Vec<u8>, AllocError>, Result<Vec<u8>, AllocError>)
    ensures { IfOk result.0 (λ v. IfOk result.1 (λ w. v.items ≡ w.items)) }
{
    let first = tn_expectation::listing_head(alloc, name);
    let second = tn_expectation::listing_head(alloc, name);
    (first, second)
}
