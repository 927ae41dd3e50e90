// The seats, each of which has seen a beginning of the journal.
ghost use Rattle.std.specs.Prelude.{◌≡◌, ◌≤◌, ◌<◌, [], IfOk, IfSome, IfNone, IsTrue, IsFalse};
ghost use Rattle.tn_live.specs.States.{seat_of, AreFresh};
ghost use Rattle.tn_live.specs.ClosedJournals.{LacksSeat, AreHanded, AreEntered, IsMissing, made_in_all};

use crate::entry::Entry;
use crate::prefix::{JournalName, Prefix};
use crate::record::Seen;
use std::alloc::{AllocError, Allocator};
use std::marker::Model;

/// One who steps the core, in turn with the others, and has seen a beginning of its journal.
#[derive(Drop)]
pub struct Seat<A: Allocator, J: JournalName> {
    pub(crate) seen: Seen<A, J>,
}

impl<A: Allocator, J: JournalName> Model for Seat<A, J> {
    ghost use Rattle.tn_live.specs.States.{SeatState, seat_of};
    ghost use Rattle.tn_live.specs.Records.{IsSeen};

    ghost Value = { SeatState };

    ghost view = { λ s. seat_of s.seen.number s.seen.entries.items };

    ghost invariant = { λ s. IsSeen J.program s.seen };
}

impl<A: Allocator, J: JournalName> Seat<A, J> {
    ghost use Rattle.std.specs.Prelude.{◌≡◌};
    ghost use Rattle.tn_live.specs.Journal.{made_by, last_by};
    ghost use Rattle.tn_live.specs.States.{IsJournal};

    /// How many entries it made.
    pub fn made(&self) -> u64
        ensures made { result ≡ made_by self.now.number self.now.seen }
        ensures seen { IsJournal J.program self.now.seen }
    {
        self.seen.made
    }

    /// The number of the latest entry that it made, from 0; None where it made none.
    pub fn last(&self) -> Option<u64>
        ensures { result ≡ last_by self.now.number self.now.seen }
    {
        self.seen.last
    }

    /// The seat's number, from 0.
    pub(crate) fn number(&self) -> u32
        ensures { result ≡ self.now.number }
    {
        self.seen.number
    }
}

/// A seat that has seen nothing.
fn fresh_seat<A: Allocator, J: JournalName>(alloc: A, front: &Prefix<J>, number: u32) -> Seat<A, J>
    requires front { front.now ≡ [] }
    requires few { number < 16 }
    ensures { result ≡ seat_of number [] }
{
    Seat {
        seen: Seen {
            front: front.again(),
            number,
            entries: Vec::new(alloc),
            made: 0,
            last: None,
        },
    }
}

/// Seats that have seen nothing, `n` of them, numbered from 0.
pub(crate) fn fresh_seats<A: Allocator + Copy, J: JournalName>(
    alloc: A,
    front: &Prefix<J>,
    n: u32,
) -> Result<Vec<Seat<A, J>, A>, AllocError>
    requires front { front.now ≡ [] }
    requires few { n ≤ 16 }
    ensures { IfOk result (λ v. AreFresh n v.items) }
{
    let mut seats = Vec::new(alloc);
    for number in 0..n {
        seats.push(fresh_seat(alloc, front, number))?;
    }
    Ok(seats)
}

/// Whether a seat has the number.
fn has_seat<A: Allocator, J: JournalName>(seats: &[Seat<A, J>], number: u32) -> bool
    ensures has { IsTrue result → LacksSeat seats.now number → ⊥ }
    ensures lacks { IsFalse result → LacksSeat seats.now number }
{
    for seat in seats {
        if seat.number() == number {
            return true;
        }
    }
    false
}

/// The least number below `count` that no seat has.
pub(crate) fn first_missing<A: Allocator, J: JournalName>(
    seats: &[Seat<A, J>],
    count: u32,
) -> Option<u32>
    ensures missing { IfSome result (IsMissing seats.now count) }
    ensures none { IfNone result (AreHanded seats.now count) }
{
    for number in 0..count {
        if !has_seat(seats, number) {
            return Some(number);
        }
    }
    None
}

/// Whether each entry is one of a seat.
pub(crate) fn are_entered<A: Allocator, J: JournalName>(
    seats: &[Seat<A, J>],
    entries: &[Entry],
) -> bool
    ensures { IsTrue result → AreEntered seats.now entries.now }
{
    for entry in entries {
        if !has_seat(seats, entry.seat) {
            return false;
        }
    }
    true
}

/// How many entries the seats made; None for more than a `u64` counts.
pub fn total_made<A: Allocator, J: JournalName>(seats: &[Seat<A, J>]) -> Option<u64>
    ensures total { IfSome result (λ n. n ≡ made_in_all seats.now) }
    ensures none { IfNone result (u64.MAX < made_in_all seats.now) }
{
    let mut total: u64 = 0;
    for seat in seats {
        let made = seat.made();
        if made > u64::MAX - total {
            return None;
        }
        total += made;
    }
    Some(total)
}
