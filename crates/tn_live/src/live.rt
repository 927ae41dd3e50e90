// The lock.
use crate::book::Book;
use crate::closed::Closed;
use crate::entry::Turn;
use crate::prefix::{JournalName, NewLog};
use crate::seat::{Seat, first_missing};
use std::alloc::{AllocError, Allocator};
use std::fmt;
use std::marker::Model;
use std::sync::{Mutex, Wait};
use thiserror::Error;
use tn_trace::{Core, StepFault};

/// A book under a lock, beside the number of its seats. Contracts see the number, and the log that names the
/// lock; its program is that of its type.
#[derive(Drop)]
pub struct Live<A: Allocator, J: JournalName> {
    seats: u32,
    lock: Mutex<Book<A, J>>,
}

impl<A: Allocator, J: JournalName> Model for Live<A, J> {
    ghost use Rattle.tn_live.specs.States.{LiveState, live_of};

    ghost Value = { LiveState };

    ghost view = { λ l. live_of l.seats J.log };
}

/// Why a lock wasn't closed.
#[derive(Drop, Error)]
pub enum CloseFault<A: Allocator, J: JournalName> {
    /// 16: a step was refused memory, or the seats don't account for the journal.
    #[error("fault 16 spent")]
    Spent,
    /// 17: the seat with this number wasn't handed in. All comes back unchanged.
    #[error("fault 17 missing seat {missing}")]
    MissingSeat {
        missing: u32,
        live: Live<A, J>,
        seats: Vec<Seat<A, J>, A>,
    },
}

impl<A: Allocator, J: JournalName> fmt::Debug for CloseFault<A, J> {
    fn fmt<W: fmt::Write>(&self, f: &mut fmt::Formatter<W>) -> fmt::Result {
        match self {
            CloseFault::Spent => write!(f, "Spent"),
            CloseFault::MissingSeat { missing, .. } => write!(f, "MissingSeat({missing})"),
        }
    }
}

impl<A: Allocator + Copy, J: JournalName> Live<A, J> {
    ghost use Rattle.std.specs.Prelude.{◌≡◌, ◌≤◌, ◌<◌, [], IfOk};
    ghost use Rattle.tn_trace.specs.Cores.{core_of};
    ghost use Rattle.tn_live.specs.States.{live_of, AreFresh};
    ghost use Rattle.tn_live.specs.SeatTurns.{SeatTurns, SeatCounts};
    ghost use Rattle.tn_live.specs.ClosedJournals.{Closes};

    /// Puts the book of a core, with an empty journal, under a lock, and makes its seats, `n` of them,
    /// numbered from 0. The journal's log and its program are those that J names.
    ///
    /// # Errors
    ///
    /// AllocError where memory was refused.
    pub fn begin(
        alloc: A,
        core: Core<A>,
        new_log: NewLog,
        n: u32,
    ) -> Result<(Live<A, J>, Vec<Seat<A, J>, A>), AllocError>
        requires core { core ≡ core_of J.program [] }
        requires named { new_log ≡ J.log }
        requires count { (0 < n) × (n ≤ 16) }
        ensures live { IfOk result (λ r. r.0 ≡ live_of n J.log) }
        ensures seats { IfOk result (λ r. AreFresh n r.1.items) }
    {
        let (book, seats) = Book::begin(alloc, core, new_log, n)?;
        let live = Live {
            seats: n,
            lock: Mutex::new(book),
        };
        Ok((live, seats))
    }

    /// One step of the core by a seat, under the lock. The seat has then seen the whole journal, also where
    /// the pick was idle or the journal is full.
    ///
    /// # Errors
    ///
    /// Spent where the seat doesn't fit, after a step that was refused memory; else LimitReached where the
    /// journal is full; else OutOfMemory where memory was refused: all is spent from now on.
    pub fn step<R: Wait>(
        &self,
        rt: &R,
        seat: &mut Seat<A, J>,
        pick: u32,
    ) -> Result<Turn<A>, StepFault>
        ensures seat { SeatTurns J.program seat.old pick result seat.new }
        ensures counts { SeatCounts seat.old result seat.new }
    {
        let mut book = self.lock.lock(rt);
        if !book.admits(seat) {
            return Err(StepFault::Spent);
        }
        book.step(seat, pick)
    }

    /// Closes the journal. All seats are to be handed in.
    ///
    /// # Errors
    ///
    /// MissingSeat where a seat isn't handed in, with the least such number; else Spent where a step was
    /// refused memory.
    pub fn close<R: Wait>(
        self,
        _rt: &R,
        seats: Vec<Seat<A, J>, A>,
    ) -> Result<Closed<A, J>, CloseFault<A, J>>
        ensures { Closes self seats.items result }
    {
        match first_missing(seats.as_slice(), self.seats) {
            Some(missing) => Err(CloseFault::MissingSeat {
                missing,
                live: self,
                seats,
            }),
            None => {
                let Live { lock, .. } = self;
                match lock.into_inner().into_closed(seats.as_slice()) {
                    Some(closed) => Ok(closed),
                    None => Err(CloseFault::Spent),
                }
            }
        }
    }
}
