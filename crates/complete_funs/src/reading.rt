// The fun of a text.
ghost use Rattle.complete_funs.specs.Answers.{AreFunsAlike};

use std::alloc::Allocator;
use tn_fun::{Clause, ReadFault};

/// `tn_fun::read_fun` has one answer: the clauses, or the refusal with its place.
pub fn one_fun<A: Allocator + Copy>(
    alloc: A,
    bytes: &[u8],
) -> (
    Result<Vec<Clause<A>, A>, ReadFault>,
    Result<Vec<Clause<A>, A>, ReadFault>,
)
    ensures { AreFunsAlike bytes.now result.0 result.1 }
{
    let first = tn_fun::read_fun(alloc, bytes);
    let second = tn_fun::read_fun(alloc, bytes);
    (first, second)
}
