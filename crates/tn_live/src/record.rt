// What a book has while it isn't spent, and what a seat has.
use crate::entry::{Entry, ItemPlace, Receipt, Turn};
use crate::places::{are_told, find_places};
use crate::prefix::{Head, JournalName, Prefix};
use std::alloc::{AllocError, Allocator};
use tn_program::Program;
use tn_trace::{Answer, Core, Item, StepFault};

/// What a seat has seen: a beginning of the journal, with how many of its entries the seat made, and the
/// number of the latest of them.
#[derive(Drop)]
pub(crate) struct Seen<A: Allocator, J: JournalName> {
    pub front: Prefix<J>,
    pub number: u32,
    pub entries: Vec<Entry, A>,
    pub made: u64,
    pub last: Option<u64>,
}

/// A core with the journal whose core it is: for each entry where the messages stand that its move added,
/// and for each seat how many entries it made.
#[derive(Drop)]
pub(crate) struct Record<A: Allocator, J: JournalName> {
    pub alloc: A,
    pub front: Prefix<J>,
    pub core: Core<A>,
    pub entries: Vec<Entry, A>,
    pub places: Vec<Vec<ItemPlace, A>, A>,
    pub counts: [u64; 16],
}

impl<A: Allocator + Copy, J: JournalName> Record<A, J> {
    ghost use Rattle.std.specs.Prelude.{◌≡◌, ◌≤◌, ◌<◌, ◌++◌, List, IfOk, OnOk, IsTrue, ◌↔◌, length, map};
    ghost use Rattle.std.specs.Prelude.{vec_capacity};
    ghost use Rattle.tn_program.specs.Views.{program_of};
    ghost use Rattle.tn_trace.specs.Items.{item_seen};
    ghost use Rattle.tn_live.specs.declared.entry.Entry.{Entry};
    ghost use Rattle.tn_live.specs.States.{HasPrefix};
    ghost use Rattle.tn_live.specs.ClosedJournals.{Confirms};
    ghost use Rattle.tn_live.specs.Records.{IsSeen, IsRecord, CountsMade};
    ghost use Rattle.tn_live.specs.RecordTurns.{SameRecord, SameSeen, SeatHasRoom, HasMoved, AddsEntry, ShowsTurn};
    ghost use Rattle.tn_live.specs.RecordTurns.{IsTurnOf, MoveEnters};

    /// Whether it is of the program.
    pub fn is_of(&self, program: &Program<A>) -> bool
        requires { IsRecord J.program self.now }
        ensures { IsTrue result ↔ (program_of program.now ≡ J.program) }
    {
        self.core.program().same(program)
    }

    /// Whether what a seat has seen begins the journal, which has no later entry of that seat.
    pub fn admits(&self, seen: &Seen<A, J>) -> bool
        requires record { IsRecord J.program self.now }
        requires seen { IsSeen J.program seen.now }
        ensures { IsTrue result ↔ HasPrefix self.now.entries.items seen.now.number seen.now.entries.items }
    {
        if seen.entries.len() > self.entries.len() {
            return false;
        }
        seen.front.begins(&self.front);
        self.counts[seen.number as usize] == seen.made
    }

    /// Gets room for one more entry, here and in what the seat has seen.
    fn make_room(&mut self, seen: &mut Seen<A, J>) -> Result<(), AllocError>
        requires { length seen.old.entries.items ≤ length self.old.entries.items }
        ensures record { SameRecord self.old self.new }
        ensures seen { SameSeen seen.old seen.new }
        ensures room { OnOk result (SeatHasRoom self.new seen.new) }
    {
        let unseen = self.entries.len() - seen.entries.len() + 1;
        seen.entries.reserve(unseen)?;
        self.entries.reserve(1)?;
        self.places.reserve(1)?;
        Ok(())
    }

    /// Shows the whole journal to a seat that has seen a beginning of it, and has room for the rest.
    fn show(&self, seen: &mut Seen<A, J>)
        requires begins { (rest : List Entry) × (self.now.entries.items ≡ seen.old.entries.items ++ rest) }
        requires room { length self.now.entries.items ≤ vec_capacity seen.old.entries }
        ensures { ShowsTurn self.now seen.old seen.new }
    {
        let from = seen.entries.len();
        let _ = seen.entries.extend_from_slice(&self.entries[from..]);
        seen.front = self.front.again();
    }

    /// Adds an entry, for which there is room, with the places of its messages: the entry's number.
    fn add(
        &mut self,
        head: &Head<J>,
        seat: u32,
        pick: u32,
        places: Vec<ItemPlace, A>,
    ) -> Result<u64, AllocError>
        requires seat { seat < 16 }
        requires few { length self.old.entries.items < 65536 }
        requires reached { self.old.front ≡ self.old.entries.items }
        requires counted { CountsMade self.old.counts self.old.entries.items }
        requires entries { length self.old.entries.items < vec_capacity self.old.entries }
        requires places { length self.old.places.items < vec_capacity self.old.places }
        ensures added { OnOk result (AddsEntry seat pick places.items self.old self.new) }
        ensures number { IfOk result (λ n. n ≡ length self.old.entries.items) }
    {
        let number = self.entries.len() as u64;
        let entry = Entry { seat, pick };
        if !self.front.add(head, number, &entry) {
            return Err(AllocError);
        }
        self.entries.push_reserved(entry);
        self.places.push_reserved(places);
        self.counts[seat as usize] += 1;
        Ok(number)
    }

    /// Adds the entry of a move that the core made, and shows the journal to the seat that made it.
    fn enter(
        &mut self,
        head: &Head<J>,
        seen: &mut Seen<A, J>,
        pick: u32,
        items: Vec<Item<A>, A>,
    ) -> Result<Turn<A>, StepFault>
        requires moved { HasMoved J.program pick self.old (map item_seen items.items) }
        requires seen { IsSeen J.program seen.old }
        requires begins { HasPrefix self.old.entries.items seen.old.number seen.old.entries.items }
        requires room { SeatHasRoom self.old seen.old }
        ensures { MoveEnters J.program pick self.old seen.old result self.new seen.new }
    {
        let Ok(places) = find_places(self.alloc, &items) else {
            return Err(StepFault::OutOfMemory);
        };
        let Ok(number) = self.add(head, seen.number, pick, places) else {
            return Err(StepFault::OutOfMemory);
        };
        self.show(seen);
        seen.made += 1;
        seen.last = Some(number);
        Ok(Turn::Moved(Receipt {
            seat: seen.number,
            number,
            pick,
            items,
        }))
    }

    /// One step of the core. All room is got before it.
    pub fn step(
        &mut self,
        head: &Head<J>,
        seen: &mut Seen<A, J>,
        pick: u32,
    ) -> Result<Turn<A>, StepFault>
        requires record { IsRecord J.program self.old }
        requires seen { IsSeen J.program seen.old }
        requires begins { HasPrefix self.old.entries.items seen.old.number seen.old.entries.items }
        ensures { IsTurnOf J.program pick self.old seen.old result self.new seen.new }
    {
        let Ok(()) = self.make_room(seen) else {
            return Err(StepFault::OutOfMemory);
        };
        match self.core.step(pick) {
            Ok(Answer::Moved { items }) => self.enter(head, seen, pick, items),
            Ok(Answer::Idle) => {
                self.show(seen);
                let front = self.entries.len() as u64;
                Ok(Turn::Idle { front })
            }
            Err(StepFault::LimitReached) => {
                self.show(seen);
                Err(StepFault::LimitReached)
            }
            Err(StepFault::Spent) => Err(StepFault::Spent),
            Err(StepFault::OutOfMemory) => Err(StepFault::OutOfMemory),
        }
    }

    /// Whether the entry at the receipt's number has its seat and pick, and the answer there its items.
    pub fn confirms(&self, receipt: &Receipt<A>) -> bool
        requires { IsRecord J.program self.now }
        ensures { IsTrue result ↔ Confirms J.program self.now.entries.items receipt.now }
    {
        let number = receipt.number as usize;
        if number >= self.entries.len() {
            return false;
        }
        let entry = self.entries[number];
        if entry.seat != receipt.seat || entry.pick != receipt.pick {
            return false;
        }
        are_told(&self.core, &self.places[number], &receipt.items)
    }
}
