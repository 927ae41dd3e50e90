// Lines at places of their own, each of which is put once.
ghost use Rattle.std.specs.Prelude.{◌≡◌, IfOk, IfSome, IfErr, OnOk, OnSome, All, length, vec_len};
ghost use Rattle.tn_trace.specs.Items.{item_seen};
ghost use Rattle.tn_pool.specs.Boards.{HasPlace, IsLineAt};

use once_cell::race::OnceBox;
use std::alloc::{AllocError, Allocator, Global};
use std::marker::Model;
use tn_listing::{Line, line_of};
use tn_trace::Item;

/// The places of one session's lines, by rising index.
type Row<A> = Vec<OnceBox<Line<A>>, A>;

/// A place for each line of each session, up to a number of lines. A line is put once, and stays.
/// Contracts see it as how many places each session has, by rising session number.
#[derive(Drop)]
pub struct Board<A: Allocator> {
    alloc: A,
    heap: Global,
    rows: Vec<Row<A>, A>,
}

impl<A: Allocator> Model for Board<A> {
    ghost use Rattle.std.specs.Prelude.{ℕ, List, map, vec_len};

    ghost Value = { List ℕ };

    ghost view = { λ b. map (λ row. vec_len row) b.rows.items };
}

/// So many empty places.
fn row_of<A: Allocator>(alloc: A, heap: Global, lines: usize) -> Result<Row<A>, AllocError>
    ensures { IfOk result (λ row. vec_len row ≡ lines) }
{
    let mut row = Vec::with_capacity(alloc, lines)?;
    for _ in 0..lines {
        row.push(OnceBox::new(heap))?;
    }
    Ok(row)
}

/// The line of an item, whose message has one more owner.
fn line_for<A: Allocator + Copy>(alloc: A, item: &Item<A>) -> Result<Line<A>, AllocError>
    ensures { IfOk result (λ line. item_seen line.item ≡ item_seen item.now) }
{
    let message = item.message.share()?;
    line_of(
        alloc,
        Item {
            session: item.session,
            index: item.index,
            message,
        },
    )
}

impl<A: Allocator> Board<A> {
    /// An empty board for so many sessions, numbered from 1, with places for so many lines of each. Its
    /// places lie in `alloc`, and what fills them in `heap`.
    ///
    /// # Errors
    ///
    /// AllocError where memory was refused.
    pub fn new(
        alloc: A,
        heap: Global,
        sessions: usize,
        lines: usize,
    ) -> Result<Board<A>, AllocError>
    where
        A: Copy,
        ensures sessions { IfOk result (λ board. length board ≡ sessions) }
        ensures lines { IfOk result (λ board. All (λ places. places ≡ lines) board) }
    {
        let mut rows = Vec::with_capacity(alloc, sessions)?;
        for _ in 0..sessions {
            rows.push(row_of(alloc, heap, lines)?)?;
        }
        Ok(Board { alloc, heap, rows })
    }

    /// The allocator of the places.
    pub(crate) fn allocator(&self) -> A
    where
        A: Copy,
    {
        self.alloc
    }

    /// The place of a session's line, if there is one.
    fn cell(&self, session: u32, index: u64) -> Option<&OnceBox<Line<A>>>
        ensures { IfSome result (λ _. HasPlace self.now session index) }
    {
        let number = (session as usize).checked_sub(1)?;
        self.rows.get(number)?.get(index as usize)
    }

    /// Puts a line at the place of its session and index.
    ///
    /// # Errors
    ///
    /// The same line, where its place is taken, the board has no such place, or memory was refused.
    pub fn put(&self, line: Line<A>) -> Result<(), Line<A>>
        ensures place { OnOk result (HasPlace self.now line.item.session line.item.index) }
        ensures back { IfErr result (λ back. back ≡ line) }
    {
        let item = line.item();
        let Some(cell) = self.cell(item.session, item.index) else {
            return Err(line);
        };
        match Box::new(self.heap, line) {
            Ok(kept) => match cell.set(kept) {
                Ok(()) => Ok(()),
                Err(back) => Err(Box::into_inner(back)),
            },
            Err(refused) => Err(refused.value),
        }
    }

    /// The line of that session and index, once it was put. It takes no memory, and waits for nobody.
    pub fn line(&self, session: u32, index: u64) -> Option<&Line<A>>
        ensures line { IfSome result (λ line. IsLineAt session index line.now) }
        ensures place { OnSome result (HasPlace self.now session index) }
    {
        let line = self.cell(session, index)?.get()?;
        let item = line.item();
        if item.session == session && item.index == index {
            Some(line)
        } else {
            None
        }
    }

    /// Puts a line of each item that has a place. One that can't be made or put is passed over.
    pub(crate) fn show(&self, items: &[Item<A>])
    where
        A: Copy,
    {
        for item in items {
            if self.cell(item.session, item.index).is_some() {
                if let Ok(line) = line_for(self.alloc, item) {
                    let _ = self.put(line);
                }
            }
        }
    }
}
