// Why a term is no specification.
ghost use Rattle.std.specs.Prelude.{◌≡◌};

use std::alloc::{AllocError, Allocator};
use tn_spec::SpecFault;

/// `tn_spec::SpecFault::from` has one answer.
pub fn from<A: Allocator>(one: AllocError, other: AllocError) -> (SpecFault<A>, SpecFault<A>)
    ensures { result.0 ≡ result.1 }
{
    (SpecFault::from(one), SpecFault::from(other))
}
