// Traps of match specifications.
ghost use Rattle.std.specs.Prelude.{◌≡◌, OnOk};
ghost use Rattle.tn_trap.specs.Views.{counted_traps_seen};

use std::alloc::{AllocError, Allocator};
use tn_spec::{Clause, Dialect};
use tn_trap::Trap;

/// `tn_trap::first_trap` has one answer.
pub fn first_trap<'a, A: Allocator>(
    dialect: Dialect,
    lengths: &[usize],
    clauses: &'a Vec<Clause<A>, A>,
) -> (Option<(usize, Trap<'a, A>)>, Option<(usize, Trap<'a, A>)>)
    ensures { counted_traps_seen result.0 ≡ counted_traps_seen result.1 }
{
    let first = tn_trap::first_trap(dialect, lengths, clauses);
    let second = tn_trap::first_trap(dialect, lengths, clauses);
    (first, second)
}

/// `tn_trap::write_trap` leaves one text, where both calls have memory.
pub fn write_trap<A: Allocator, B: Allocator>(
    dialect: Dialect,
    before: usize,
    trap: Trap<'_, A>,
    one: &mut Vec<u8, B>,
    other: &mut Vec<u8, B>,
) -> (Result<(), AllocError>, Result<(), AllocError>)
    requires { one.old.items ≡ other.old.items }
    ensures { OnOk result.0 (OnOk result.1 (one.new.items ≡ other.new.items)) }
{
    let first = tn_trap::write_trap(dialect, before, trap, one);
    let second = tn_trap::write_trap(dialect, before, trap, other);
    (first, second)
}
