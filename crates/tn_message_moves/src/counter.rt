// The messages of the sessions, counted as a run goes on.
ghost use Rattle.std.specs.Prelude.{◌≡◌, IfOk, OnOk};
ghost use Rattle.tn_message_moves.specs.Tallies.{slot_counts, with_move, each_with_move, tallies_seen};

use crate::tally::Tally;
use std::alloc::{AllocError, Allocator};
use tn_flags::{Command, Event};
use tn_node::Node;
use tn_program::Program;
use tn_trace::{JournalEntry, Observer, Recorder, Slot};

/// The sessions of a run, whose messages are counted.
#[derive(Drop)]
pub(crate) struct MoveCounter<A: Allocator> {
    pub alloc: A,
    pub recorder: Recorder<A, Tally>,
}

/// Appends the number of a move as often as there are more messages than numbers.
fn add_move<A: Allocator>(
    moves: &mut Vec<u32, A>,
    number: u32,
    count: usize,
) -> Result<(), AllocError>
    ensures { OnOk result (moves.new.items ≡ with_move number count moves.old.items) }
{
    while moves.len() < count {
        moves.push(number)?;
    }
    Ok(())
}

/// The same of each session.
fn add_moves<A: Allocator>(
    moves: &mut Vec<Vec<u32, A>, A>,
    number: u32,
    slots: &Vec<Slot<A, Tally>, A>,
) -> Result<(), AllocError>
    ensures { OnOk result (tallies_seen moves.new.items ≡
        each_with_move number (slot_counts slots.now.items) (tallies_seen moves.old.items)) }
{
    for place in 0..slots.len().min(moves.len()) {
        add_move(&mut moves[place], number, slots[place].kept.count)?;
    }
    Ok(())
}

/// The number of a move, which is 65,536 at most.
fn small_number(number: u64) -> Result<u32, AllocError>
    ensures { IfOk result (λ n. n ≡ number) }
{
    match u32::try_from(number) {
        Ok(small) => Ok(small),
        Err(_) => Err(AllocError),
    }
}

impl<A: Allocator + Copy> MoveCounter<A> {
    ghost use Rattle.std.specs.Prelude.{[], IfOk};
    ghost use Rattle.tn_program.specs.Views.{program_of};
    ghost use Rattle.tn_message_moves.specs.Counters.{HasCounted};

    /// The sessions of a program before any move.
    pub(crate) fn new(alloc: A, program: &Program<A>) -> Result<MoveCounter<A>, AllocError>
        ensures { IfOk result (λ c. HasCounted c (program_of program.now) []) }
    {
        Ok(MoveCounter {
            alloc,
            recorder: Recorder::new(alloc, program)?,
        })
    }
}

impl<A: Allocator + Copy> Observer<A> for MoveCounter<A> {
    ghost use Rattle.tn_message_moves.specs.Counters.{HasCounted, AddsMoveNumber};

    type Output = Vec<Vec<u32, A>, A>;

    type Sight = ();

    ghost looks = { λ _ _ _ _. Unit {0} };

    ghost sees = { HasCounted };

    ghost adds = { AddsMoveNumber };

    ghost reaches = { λ _ _. Unit {0} };

    fn look(&self, _node: &Node<A>, _pick: u32) {}

    fn obey(
        &mut self,
        program: &Program<A>,
        entry: JournalEntry,
        command: &Command<A>,
        out: &mut Vec<Vec<u32, A>, A>,
    ) -> Result<(), AllocError> {
        let mut given = Vec::new(self.alloc);
        self.recorder.obey(program, entry, command, &mut given)?;
        let number = small_number(entry.number)?;
        add_moves(out, number, &self.recorder.slots)?;
        Ok(())
    }

    fn see(
        &mut self,
        program: &Program<A>,
        entry: JournalEntry,
        _sight: (),
        events: &Vec<Event<A>, A>,
        out: &mut Vec<Vec<u32, A>, A>,
    ) -> Result<(), AllocError> {
        let mut given = Vec::new(self.alloc);
        self.recorder.see(program, entry, (), events, &mut given)?;
        let number = small_number(entry.number)?;
        add_moves(out, number, &self.recorder.slots)?;
        Ok(())
    }

    ghost stays = { λ out. tt };

    ghost reaches_on = { λ first now next a b. tt };
}
