// The notes on a fun.
ghost use Rattle.std.specs.Prelude.{◌≡◌, IfOk};

use std::alloc::{AllocError, Allocator};
use tn_fun_words::FunWords;

/// `tn_fun_words::notes_of` has one answer.
pub fn notes_of<A: Allocator + Copy>(
    alloc: A,
    one: &FunWords<'_, A>,
    other: &FunWords<'_, A>,
) -> (
    Result<Vec<u8, A>, AllocError>,
    Result<Vec<u8, A>, AllocError>,
)
    requires { one.now.bytes.now ≡ other.now.bytes.now }
    ensures { IfOk result.0 (λ v. IfOk result.1 (λ w. v.items ≡ w.items)) }
{
    (
        tn_fun_words::notes_of(alloc, one),
        tn_fun_words::notes_of(alloc, other),
    )
}
