// A run, and what looks on.
ghost use Rattle.std.specs.Prelude.{◌≡◌, min};

use crate::bound::{Bound, NoBound};
use crate::functions::command_at;
use crate::journal::{JOURNAL, JournalEntry};
use crate::observer::Observer;
use std::alloc::{AllocError, Allocator};
use tn_node::{Moved, Node};
use tn_program::Program;

/// What a pick came to.
#[derive(Clone, Copy, Debug, PartialEq, Eq)]
pub enum PickOutcome {
    /// It moved.
    Moved,
    /// Nothing moved.
    Idle,
    /// The journal has as many entries as it may have: the pick was passed over.
    Full,
}

/// How many of some picks were taken.
#[derive(Clone, Copy, Debug, PartialEq, Eq)]
pub enum Extent {
    /// All of them.
    All,
    /// Those up to the first after which the observer has more than it may have.
    TooMuch,
}

/// The node of a program, what looks on, the picks that moved, and how many may move.
#[derive(Drop)]
pub struct Run<A: Allocator, O> {
    pub(crate) node: Node<A>,
    pub(crate) observer: O,
    pub(crate) journal: Vec<u32, A>,
    pub(crate) limit: usize,
}

/// How many picks may move: at most the limit's number of them, and no more than a journal has entries.
pub fn most_moves(limit: usize) -> usize
    ensures { result ≡ min limit 65536 }
{
    if limit < JOURNAL { limit } else { JOURNAL }
}

impl<A: Allocator + Copy, O: Observer<A> + Drop> Run<A, O> {
    ghost use Rattle.std.specs.Prelude.{◌≡◌, ◌∷◌, [], IfOk};
    ghost use Rattle.def_run.specs.Laws.{repeat_picks};
    ghost use Rattle.tn_trace.specs.Runs.{StartsRun, TakesPick};
    ghost use Rattle.tn_trace.specs.Follows.{FollowsMore, AddsMore};
    ghost use Rattle.tn_trace.specs.Within.{TakesWithin};

    /// The run of a program before any pick, with what looks on. At most the limit's number of picks move.
    pub fn new(
        alloc: A,
        program: &Program<A>,
        observer: O,
        limit: usize,
    ) -> Result<Run<A, O>, AllocError>
        ensures start { IfOk result (StartsRun O.sees program.now limit observer) }
        ensures observer { IfOk result (λ r. r.observer ≡ observer) }
    {
        Ok(Run {
            node: Node::new(alloc, program)?,
            observer,
            journal: Vec::new(alloc),
            limit: most_moves(limit),
        })
    }

    /// One more pick: what it came to. After an `Err` a part of what the observer makes of it may be added.
    pub fn step(
        &mut self,
        program: &Program<A>,
        pick: u32,
        out: &mut O::Output,
    ) -> Result<PickOutcome, AllocError>
        ensures taken { TakesPick O.sees O.adds program.now pick self.old self.new out.old out.new result }
        ensures reaches { O.reaches out.old out.new }
    {
        let count = self.journal.len();
        if count >= self.limit {
            return Ok(PickOutcome::Full);
        }
        let entry = JournalEntry {
            number: count as u64 + 1,
            pick,
        };
        let sight = self.observer.look(&self.node, pick);
        match self.node.step(pick)? {
            Moved::Idle => Ok(PickOutcome::Idle),
            Moved::Control(number) => match command_at(program, number) {
                Some(command) => {
                    self.observer.obey(program, entry, command, out)?;
                    self.journal.push(pick)?;
                    Ok(PickOutcome::Moved)
                }
                None => Ok(PickOutcome::Idle),
            },
            Moved::Moved(events) => {
                self.observer.see(program, entry, sight, &events, out)?;
                self.journal.push(pick)?;
                Ok(PickOutcome::Moved)
            }
        }
    }

    /// One more pick, and whether the observer has more than it may have where it moved. After an `Err` a part of what
    /// the observer makes of it may be added.
    fn step_within<B: Bound<O>>(
        &mut self,
        program: &Program<A>,
        pick: u32,
        bound: &B,
        out: &mut O::Output,
    ) -> Result<Extent, AllocError>
        ensures taken { TakesWithin O.sees O.adds (B.exceeds bound.now) program.now (pick ∷ [])
            self.old self.new out.old out.new result }
        ensures reaches { O.reaches out.old out.new }
    {
        match self.step(program, pick, out)? {
            PickOutcome::Moved => {
                if bound.is_exceeded(&self.observer) {
                    Ok(Extent::TooMuch)
                } else {
                    Ok(Extent::All)
                }
            }
            PickOutcome::Idle => Ok(Extent::All),
            PickOutcome::Full => Ok(Extent::All),
        }
    }

    /// The picks in order, until the observer has more than it may have. After an `Err` a part of what it makes of them
    /// may be added.
    ///
    /// # Errors
    ///
    /// AllocError where memory was refused.
    pub fn take_within<B: Bound<O>>(
        &mut self,
        program: &Program<A>,
        picks: &[u32],
        bound: &B,
        out: &mut O::Output,
    ) -> Result<Extent, AllocError>
        ensures taken { TakesWithin O.sees O.adds (B.exceeds bound.now) program.now picks.now
            self.old self.new out.old out.new result }
        ensures reaches { O.reaches out.old out.new }
    {
        for pick in picks {
            match self.step_within(program, *pick, bound, out)? {
                Extent::All => {}
                Extent::TooMuch => return Ok(Extent::TooMuch),
            }
        }
        Ok(Extent::All)
    }

    /// The picks so many times, as `take_within` takes them. After a time when none of them moved no other would move
    /// one, so that the times after it aren't taken.
    ///
    /// # Errors
    ///
    /// AllocError where memory was refused.
    pub fn take_times<B: Bound<O>>(
        &mut self,
        program: &Program<A>,
        once: &[u32],
        count: usize,
        bound: &B,
        out: &mut O::Output,
    ) -> Result<Extent, AllocError>
        ensures taken { TakesWithin O.sees O.adds (B.exceeds bound.now) program.now (repeat_picks once.now count)
            self.old self.new out.old out.new result }
        ensures reaches { O.reaches out.old out.new }
    {
        for turn in 0..count {
            let before = self.journal.len();
            match self.take_within(program, once, bound, out)? {
                Extent::All => {}
                Extent::TooMuch => return Ok(Extent::TooMuch),
            }
            let after = self.journal.len();
            if after == before {
                return Ok(Extent::All);
            }
        }
        Ok(Extent::All)
    }

    /// The picks in order. After an `Err` a part of what the observer makes of them may be added.
    ///
    /// # Errors
    ///
    /// AllocError where memory was refused.
    pub fn take_all(
        &mut self,
        program: &Program<A>,
        picks: &[u32],
        out: &mut O::Output,
    ) -> Result<(), AllocError>
        ensures follows { FollowsMore O.sees program.now picks.now self.old self.new result }
        ensures adds { AddsMore O.sees O.adds program.now picks.now self.old self.new out.old out.new result }
        ensures reaches { O.reaches out.old out.new }
    {
        self.take_within(program, picks, &NoBound, out)?;
        Ok(())
    }

    /// The node after the picks that moved.
    pub fn node(&self) -> &Node<A>
        ensures { result.now ≡ self.now.node }
    {
        &self.node
    }

    /// What looks on.
    pub fn observer(&self) -> &O
        ensures { result.now ≡ self.now.observer }
    {
        &self.observer
    }

    /// The picks that moved so far, in order.
    pub fn journal(&self) -> &[u32]
        ensures { result.now ≡ self.now.journal.items }
    {
        &self.journal
    }

    /// The picks that moved, in order.
    pub fn into_journal(self) -> Vec<u32, A>
        ensures { result ≡ self.journal }
    {
        self.journal
    }
}
