// The line of a text of moves that is refused.
ghost use Rattle.std.specs.Prelude.{◌≡◌, OnOk, OnErr};

use std::alloc::{AllocError, Allocator};
use tn_notice::BadMoves;

/// `tn_notice::write_bad_moves` leaves one text, where both calls have memory or neither.
pub fn write_bad_moves<A: Allocator, B: Allocator>(
    moves: BadMoves<'_, A>,
    one: &mut Vec<u8, B>,
    other: &mut Vec<u8, B>,
) -> (Result<(), AllocError>, Result<(), AllocError>)
    requires { one.old.items ≡ other.old.items }
    ensures ok { OnOk result.0 (OnOk result.1 (one.new.items ≡ other.new.items)) }
    ensures err { OnErr result.0 (OnErr result.1 (one.new.items ≡ other.new.items)) }
{
    let first = tn_notice::write_bad_moves(moves, one);
    let second = tn_notice::write_bad_moves(moves, other);
    (first, second)
}
