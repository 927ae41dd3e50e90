// The seats of a run.
ghost use Rattle.std.specs.Prelude.{◌≡◌};

use std::alloc::Allocator;
use tn_live::{JournalName, Seat};

/// `tn_live::Seat::made` has one answer.
pub fn made<A: Allocator, J: JournalName, K: JournalName>(
    one: &Seat<A, J>,
    other: &Seat<A, K>,
) -> (u64, u64)
    requires { one.now ≡ other.now }
    ensures { result.0 ≡ result.1 }
{
    (one.made(), other.made())
}

/// `tn_live::Seat::last` has one answer.
pub fn last<A: Allocator, J: JournalName, K: JournalName>(
    one: &Seat<A, J>,
    other: &Seat<A, K>,
) -> (Option<u64>, Option<u64>)
    requires { one.now ≡ other.now }
    ensures { result.0 ≡ result.1 }
{
    (one.last(), other.last())
}

/// `tn_live::total_made` has one answer.
pub fn total_made<A: Allocator, J: JournalName, K: JournalName>(
    one: &[Seat<A, J>],
    other: &[Seat<A, K>],
) -> (Option<u64>, Option<u64>)
    requires { one.now ≡ other.now }
    ensures { result.0 ≡ result.1 }
{
    (tn_live::total_made(one), tn_live::total_made(other))
}
