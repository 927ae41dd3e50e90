// The output of a closed journal.
ghost use Rattle.std.specs.Prelude.{◌≡◌, IfOk};
ghost use Rattle.tn_live.specs.Journal.{picks_of};

use std::alloc::{AllocError, Allocator};
use tn_live::{Closed, JournalName};
use tn_pool::{Board, JournalOutput};

/// `tn_pool::assemble` has one answer, whatever the boards hold. Only how many lines came from one is free.
pub fn assemble<A: Allocator + Copy, B: Allocator + Copy, J: JournalName, K: JournalName>(
    alloc: B,
    one: &Closed<A, J>,
    other: &Closed<A, K>,
    board: &Board<A>,
    other_board: &Board<A>,
) -> (
    Result<JournalOutput<B>, AllocError>,
    Result<JournalOutput<B>, AllocError>,
)
    requires programs { J.program ≡ K.program }
    requires picks { picks_of one.now ≡ picks_of other.now }
    ensures text { IfOk result.0 (λ a. IfOk result.1 (λ b. a.text.items ≡ b.text.items)) }
    ensures picks { IfOk result.0 (λ a. IfOk result.1 (λ b. a.picks.items ≡ b.picks.items)) }
{
    let first = tn_pool::assemble(alloc, one, board);
    let second = tn_pool::assemble(alloc, other, other_board);
    (first, second)
}
