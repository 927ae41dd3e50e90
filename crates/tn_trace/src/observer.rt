// What looks on while a run takes its picks.
use crate::journal::JournalEntry;
use std::alloc::{AllocError, Allocator};
use tn_flags::{Command, Event};
use tn_node::Node;
use tn_program::Program;

/// What looks on while a run takes its picks, and adds to an output what it makes of each that moves.
pub trait Observer<A: Allocator> {
    ghost use Rattle.std.specs.Prelude.{ℕ, List};
    ghost use Rattle.def_script.specs.Program as definition;
    ghost use Rattle.tn_trace.specs.Observers.{LooksAhead, SeesCommand, SeesEvents};

    /// What it adds to.
    type Output;

    /// What it keeps of the node before a pick.
    type Sight: Copy;

    /// What it keeps of the node of a program after such picks, before one more.
    ghost looks: { Self.Sight → definition.Program → List ℕ → ℕ → Type 0 };

    /// It saw the run of a program by these picks, each of which moved, and is as it is then.
    ghost sees: { Self → definition.Program → List ℕ → Type 0 };

    /// What it adds of one more pick of a program after such picks, with itself before and afterwards.
    ghost adds: { definition.Program → List ℕ → ℕ → Self → Self → Self.Output → Self.Output → Type 0 };

    /// What the output may be afterwards, also where memory was refused.
    ghost reaches: { Self.Output → Self.Output → Type 0 };

    /// It looks at the node before a pick.
    fn look(&self, node: &Node<A>, pick: u32) -> Self::Sight
        ensures { LooksAhead looks node.now pick result };

    /// It sees a command of the control list. After an `Err` a part of what it makes of it may be added.
    fn obey(
        &mut self,
        program: &Program<A>,
        entry: JournalEntry,
        command: &Command<A>,
        out: &mut Self::Output,
    ) -> Result<(), AllocError>
        ensures ok { SeesCommand sees adds program.now entry command.now self.old self.new out.old out.new result }
        ensures reaches { reaches out.old out.new };

    /// It sees the events of a step of a process, in order, with what it kept of the node before it. After an `Err` a
    /// part of what it makes of them may be added.
    fn see(
        &mut self,
        program: &Program<A>,
        entry: JournalEntry,
        sight: Self::Sight,
        events: &Vec<Event<A>, A>,
        out: &mut Self::Output,
    ) -> Result<(), AllocError>
        ensures ok { SeesEvents looks sees adds program.now entry sight events.now.items
            self.old self.new out.old out.new result }
        ensures reaches { reaches out.old out.new };

    /// The output may be the same afterwards.
    ghost stays: { (out : Self.Output) → reaches out out };

    /// What it may be after something more.
    ghost reaches_on: { (first now next : Self.Output) → reaches first now → reaches now next → reaches first next };
}
