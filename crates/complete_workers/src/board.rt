// Boards, and what they lend.
ghost use Rattle.std.specs.Prelude.{◌≡◌, Err, None, IfOk, IfErr, IfSome};
ghost use Rattle.tn_trace.specs.Items.{item_seen};
ghost use Rattle.tn_pool.specs.Boards.{HasPlace};
ghost use Rattle.complete_workers.specs.Receipts.{ArePlacedAlike};

use std::alloc::{AllocError, Allocator, Global};
use tn_listing::Line;
use tn_pool::Board;

/// `tn_pool::Board::new` has one answer.
pub fn new<A: Allocator + Copy>(
    alloc: A,
    heap: Global,
    sessions: usize,
    lines: usize,
) -> (Result<Board<A>, AllocError>, Result<Board<A>, AllocError>)
    ensures { IfOk result.0 (λ b. IfOk result.1 (λ c. b ≡ c)) }
{
    let first = Board::new(alloc, heap, sessions, lines);
    let second = Board::new(alloc, heap, sessions, lines);
    (first, second)
}

/// `tn_pool::Board::put` has one answer where the line comes back: that line.
pub fn put<A: Allocator>(
    board: &Board<A>,
    other_board: &Board<A>,
    one: Line<A>,
    other: Line<A>,
) -> (Result<(), Line<A>>, Result<(), Line<A>>)
    requires { item_seen one.item ≡ item_seen other.item }
    ensures { IfErr result.0 (λ l. IfErr result.1 (λ k. item_seen l.item ≡ item_seen k.item)) }
{
    let first = board.put(one);
    let second = other_board.put(other);
    (first, second)
}

/// `tn_pool::Board::put` has one answer where the board has no place for the line: it comes back.
pub fn put_without_place<A: Allocator>(board: &Board<A>, line: Line<A>) -> Result<(), Line<A>>
    requires { HasPlace board.now line.item.session line.item.index → ⊥ }
    ensures { result ≡ Err line }
{
    board.put(line)
}

/// `tn_pool::Board::line` has one answer as to where a line that is lent belongs.
pub fn line<'b, A: Allocator>(
    one: &'b Board<A>,
    other: &'b Board<A>,
    session: u32,
    index: u64,
) -> (Option<&'b Line<A>>, Option<&'b Line<A>>)
    ensures { IfSome result.0 (λ l. IfSome result.1 (λ k. ArePlacedAlike l.now k.now)) }
{
    (one.line(session, index), other.line(session, index))
}

/// `tn_pool::Board::line` has one answer where the board has no such place: it lends nothing.
pub fn line_without_place<A: Allocator>(
    board: &Board<A>,
    session: u32,
    index: u64,
) -> Option<&Line<A>>
    requires { HasPlace board.now session index → ⊥ }
    ensures { result ≡ None }
{
    board.line(session, index)
}
