// What explains the moves of a run that a running node does otherwise.
ghost use Rattle.std.specs.Prelude.{◌≡◌, ◌&&◌, ◌||◌, if◌then◌else◌, take};
ghost use Rattle.def_explain.specs.RunTexts.{is_move};
ghost use Rattle.tn_explain.specs.Filters.{selection_seen};

use crate::explainer::Explainer;
use std::alloc::{AllocError, Allocator};
use tn_flags::{Command, Event};
use tn_node::{Node, Outlook};
use tn_program::Program;
use tn_running_node::{Comparison, LineKinds};
use tn_trace::{JournalEntry, Observer};

/// What explains a run, and its sessions beside those of a node.
#[derive(Drop)]
pub(crate) struct NodeExplainer<'a, A: Allocator> {
    pub explainer: Explainer<'a, A>,
    pub comparison: Comparison<A>,
}

impl<'a, A: Allocator + Copy> NodeExplainer<'a, A> {
    /// Takes back what was written of a move from this length on, unless it is selected and has a line of a node.
    fn leave_out(&self, number: u64, kinds: LineKinds, length: usize, out: &mut Vec<u8, A>)
        ensures { let a = selection_seen self.now.explainer.selection in out.new.items ≡
            (if (kinds.differs || kinds.is_open) && is_move a.move number then out.old.items
            else take length out.old.items) }
    {
        let has_line = kinds.differs | kinds.is_open;
        if !(has_line && self.explainer.selection.selects(number)) {
            out.truncate(length);
        }
    }
}

impl<'a, A: Allocator + Copy> Observer<A> for NodeExplainer<'a, A> {
    ghost use Rattle.tn_text.specs.Writes.{Grows};
    ghost use Rattle.tn_text.proofs.Growth.{grows_none, grows_on};
    ghost use Rattle.tn_running_node.specs.NodeMoves.{SeesAhead};
    ghost use Rattle.tn_explain.specs.Explainers.{HasExplainedNode, AddsNodeExplanation};

    type Output = Vec<u8, A>;

    type Sight = Outlook;

    ghost looks = { SeesAhead };

    ghost sees = { HasExplainedNode };

    ghost adds = { AddsNodeExplanation };

    ghost reaches = { λ out out'. Grows out.items out'.items };

    fn look(&self, node: &Node<A>, pick: u32) -> Outlook {
        node.outlook(pick)
    }

    fn obey(
        &mut self,
        program: &Program<A>,
        entry: JournalEntry,
        command: &Command<A>,
        out: &mut Vec<u8, A>,
    ) -> Result<(), AllocError> {
        let length = out.len();
        self.explainer.obey(program, entry, command, out)?;
        let functions = program.functions();
        let kinds = self.comparison.obey(entry.pick, functions, command, out)?;
        self.leave_out(entry.number, kinds, length, out);
        Ok(())
    }

    fn see(
        &mut self,
        program: &Program<A>,
        entry: JournalEntry,
        sight: Outlook,
        events: &Vec<Event<A>, A>,
        out: &mut Vec<u8, A>,
    ) -> Result<(), AllocError> {
        let length = out.len();
        self.explainer.see(program, entry, sight, events, out)?;
        let kinds = self.comparison.see_move(entry.pick, sight, events, out)?;
        self.leave_out(entry.number, kinds, length, out);
        Ok(())
    }

    ghost stays = { λ out. grows_none out.items };

    ghost reaches_on = { λ first now next a b. grows_on a b };
}
