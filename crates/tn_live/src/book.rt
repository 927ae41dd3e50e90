// The book under the lock.
ghost use Rattle.std.specs.Prelude.{IsTrue, All};
ghost use Rattle.tn_live.specs.States.{SeatFits};

use crate::closed::Closed;
use crate::entry::Turn;
use crate::prefix::{Head, JournalName, NewLog};
use crate::record::Record;
use crate::seat::{Seat, are_entered, fresh_seats, total_made};
use std::alloc::{AllocError, Allocator};
use std::marker::Model;
use tn_program::Program;
use tn_trace::{Core, StepFault};

/// The lock's value: a core with the journal whose core it is, beside the one head of the journal's log. It
/// is spent once a step was refused memory: then it has the head alone.
#[derive(Drop)]
pub struct Book<A: Allocator, J: JournalName> {
    head: Head<J>,
    record: Option<Record<A, J>>,
}

impl<A: Allocator, J: JournalName> Model for Book<A, J> {
    ghost use Rattle.tn_live.specs.States.{BookState};
    ghost use Rattle.tn_live.specs.Records.{RecordHolds, is_spent, record_entries};

    ghost Value = { BookState };

    ghost view = { λ b. record { spent = is_spent b.record; entries = record_entries b.record } };

    ghost invariant = { λ b. RecordHolds J.program b.record };
}

/// Whether all seats fit with the program that they share with the book.
fn all_fit<A: Allocator + Copy, J: JournalName>(book: &Book<A, J>, seats: &[Seat<A, J>]) -> bool
    ensures { IsTrue result → All (λ s. SeatFits book.now s) seats.now }
{
    for seat in seats {
        if !book.admits(seat) {
            return false;
        }
    }
    true
}

impl<A: Allocator + Copy, J: JournalName> Book<A, J> {
    ghost use Rattle.std.specs.Prelude.{◌≡◌, ◌≤◌, ◌<◌, [], false, IfOk, IfSome, IsTrue, ◌↔◌};
    ghost use Rattle.tn_program.specs.Views.{program_of};
    ghost use Rattle.tn_trace.specs.Cores.{core_of};
    ghost use Rattle.tn_live.specs.States.{SeatFits, book_of, AreFresh};
    ghost use Rattle.tn_live.specs.SeatTurns.{SeatTurns, SeatCounts, BookTurns};
    ghost use Rattle.tn_live.specs.ClosedJournals.{EndsJournal};

    /// The book of a core, with an empty journal, and its seats, `n` of them, numbered from 0. The journal's
    /// log and its program are those that J names.
    ///
    /// # Errors
    ///
    /// AllocError where memory was refused.
    pub fn begin(
        alloc: A,
        core: Core<A>,
        new_log: NewLog,
        n: u32,
    ) -> Result<(Book<A, J>, Vec<Seat<A, J>, A>), AllocError>
        requires core { core ≡ core_of J.program [] }
        requires named { new_log ≡ J.log }
        requires count { (0 < n) × (n ≤ 16) }
        ensures book { IfOk result (λ r. r.0 ≡ book_of []) }
        ensures seats { IfOk result (λ r. AreFresh n r.1.items) }
    {
        let (head, front) = new_log.under_name::<J>();
        let seats = fresh_seats(alloc, &front, n)?;
        let record = Record {
            alloc,
            front,
            core,
            entries: Vec::new(alloc),
            places: Vec::new(alloc),
            counts: [0; 16],
        };
        let book = Book {
            head,
            record: Some(record),
        };
        Ok((book, seats))
    }

    /// Whether the book isn't spent, has that program, and what the seat has seen begins its journal, which
    /// has no later entry of that seat. It takes no memory.
    pub fn fits(&self, program: &Program<A>, seat: &Seat<A, J>) -> bool
        ensures { IsTrue result ↔ (program_of program.now ≡ J.program) × SeatFits self.now seat.now }
    {
        self.admits(seat) && self.is_of(program)
    }

    /// Whether a book that isn't spent has the program.
    fn is_of(&self, program: &Program<A>) -> bool
        ensures { self.now.spent ≡ false → IsTrue result ↔ (program_of program.now ≡ J.program) }
    {
        match &self.record {
            None => false,
            Some(record) => record.is_of(program),
        }
    }

    /// Whether the seat fits with the program that both have.
    pub(crate) fn admits(&self, seat: &Seat<A, J>) -> bool
        ensures { IsTrue result ↔ SeatFits self.now seat.now }
    {
        match &self.record {
            None => false,
            Some(record) => record.admits(&seat.seen),
        }
    }

    /// One step of the core by a seat that fits. The entry goes to the end of the journal where the pick
    /// moved, and the seat has then seen the whole journal, also where it was idle or the journal is full.
    ///
    /// # Errors
    ///
    /// LimitReached where the journal is full; OutOfMemory where memory was refused: the book is spent, and
    /// the seat is as it was.
    pub fn step(&mut self, seat: &mut Seat<A, J>, pick: u32) -> Result<Turn<A>, StepFault>
        requires { SeatFits self.old seat.old }
        ensures seat { SeatTurns J.program seat.old pick result seat.new }
        ensures counts { SeatCounts seat.old result seat.new }
        ensures book { BookTurns J.program self.old seat.old.number pick result self.new seat.new.seen }
    {
        let Some(record) = &mut self.record else {
            return Err(StepFault::Spent);
        };
        match record.step(&self.head, &mut seat.seen, pick) {
            Ok(turn) => Ok(turn),
            Err(StepFault::LimitReached) => Err(StepFault::LimitReached),
            Err(StepFault::Spent) => Err(StepFault::Spent),
            Err(StepFault::OutOfMemory) => {
                self.record = None;
                Err(StepFault::OutOfMemory)
            }
        }
    }

    /// The closed journal, where all these seats fit and made all its entries.
    pub(crate) fn into_closed(self, seats: &[Seat<A, J>]) -> Option<Closed<A, J>>
        ensures { IfSome result (EndsJournal seats.now) }
    {
        if !all_fit(&self, seats) {
            return None;
        }
        let record = self.record?;
        if !are_entered(seats, &record.entries) {
            return None;
        }
        let made = total_made(seats)?;
        if made != record.entries.len() as u64 {
            return None;
        }
        Some(Closed { record })
    }
}
