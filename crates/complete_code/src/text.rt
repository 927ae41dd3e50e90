// The text of code.
ghost use Rattle.std.specs.Prelude.{◌≡◌, OnErr};

use std::alloc::{AllocError, Allocator};
use tn_code::Code;

/// `tn_code::dump` has one answer but for the text that it appends: it is for those who read it.
pub fn dump<A: Allocator, B: Allocator>(
    code: &Code<A>,
    one: &mut Vec<u8, B>,
    other: &mut Vec<u8, B>,
) -> (Result<(), AllocError>, Result<(), AllocError>)
    requires { one.old.items ≡ other.old.items }
    ensures { OnErr result.0 (OnErr result.1 (one.new.items ≡ other.new.items)) }
{
    let first = tn_code::dump(code, one);
    let second = tn_code::dump(code, other);
    (first, second)
}
