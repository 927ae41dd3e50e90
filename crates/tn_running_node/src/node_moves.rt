// Which moves of a run a running node does otherwise.
ghost use Rattle.std.specs.Prelude.{◌≡◌, IfOk};
ghost use Rattle.def_running_node.specs.NodeNotes.{moves_that_differ};
ghost use Rattle.tn_program.specs.Views.{program_of};

use crate::comparison::Comparison;
use std::alloc::{AllocError, Allocator};
use tn_flags::{Command, Event};
use tn_node::{Node, Outlook};
use tn_program::Program;
use tn_trace::{JOURNAL, JournalEntry, Observer, Run};

/// A run that is compared with that of a node: of each move it is told whether a session has other lines there.
#[derive(Drop)]
pub(crate) struct NodeMoves<A: Allocator> {
    pub alloc: A,
    pub comparison: Comparison<A>,
}

impl<A: Allocator + Copy> Observer<A> for NodeMoves<A> {
    ghost use Rattle.tn_running_node.specs.NodeMoves.{SeesAhead, HasComparedMoves, AddsMove};

    type Output = Vec<bool, A>;

    type Sight = Outlook;

    ghost looks = { SeesAhead };

    ghost sees = { HasComparedMoves };

    ghost adds = { AddsMove };

    ghost reaches = { λ _ _. Unit {0} };

    fn look(&self, node: &Node<A>, pick: u32) -> Outlook {
        node.outlook(pick)
    }

    fn obey(
        &mut self,
        program: &Program<A>,
        entry: JournalEntry,
        command: &Command<A>,
        out: &mut Vec<bool, A>,
    ) -> Result<(), AllocError> {
        let mut text = Vec::new(self.alloc);
        let kinds = self
            .comparison
            .obey(entry.pick, program.functions(), command, &mut text)?;
        out.push(kinds.differs | kinds.is_open)?;
        Ok(())
    }

    fn see(
        &mut self,
        _program: &Program<A>,
        entry: JournalEntry,
        sight: Outlook,
        events: &Vec<Event<A>, A>,
        out: &mut Vec<bool, A>,
    ) -> Result<(), AllocError> {
        let mut text = Vec::new(self.alloc);
        let kinds = self
            .comparison
            .see_move(entry.pick, sight, events, &mut text)?;
        out.push(kinds.differs | kinds.is_open)?;
        Ok(())
    }

    ghost stays = { λ out. tt };

    ghost reaches_on = { λ first now next a b. tt };
}

/// Of each move of the program's run by these picks, in order, whether a session has other messages or another reply on
/// a running node, or what it has isn't determined any more.
///
/// # Errors
///
/// AllocError where memory was refused.
pub fn moves_that_differ<A: Allocator + Copy>(
    alloc: A,
    program: &Program<A>,
    picks: &[u32],
) -> Result<Vec<bool, A>, AllocError>
    ensures { IfOk result (λ v. v.items ≡ moves_that_differ (program_of program.now) picks.now) }
{
    let comparison = Comparison::new(alloc, program, None)?;
    let observer = NodeMoves { alloc, comparison };
    let mut run = Run::new(alloc, program, observer, JOURNAL)?;
    let mut differs = Vec::new(alloc);
    run.take_all(program, picks, &mut differs)?;
    Ok(differs)
}
