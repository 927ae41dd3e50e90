// What explains a run as it takes its picks.
use crate::selection::Selection;
use crate::sessions::Sessions;
use crate::step::Step;
use std::alloc::{AllocError, Allocator};
use tn_flags::{Command, Event};
use tn_node::{Node, Outlook};
use tn_program::Program;
use tn_trace::{JournalEntry, Observer};

/// The sessions of a run that is explained, and what is selected of it.
#[derive(Drop)]
pub(crate) struct Explainer<'a, A: Allocator> {
    pub selection: Selection<'a>,
    pub sessions: Sessions<A>,
}

impl<'a, A: Allocator + Copy> Explainer<'a, A> {
    ghost use Rattle.std.specs.Prelude.{◌≡◌, [], IfOk};
    ghost use Rattle.tn_program.specs.Views.{program_of};
    ghost use Rattle.tn_explain.specs.Explainers.{HasExplained};

    /// The explainer of a program's run before any pick.
    pub fn new(
        alloc: A,
        program: &Program<A>,
        selection: &Selection<'a>,
    ) -> Result<Explainer<'a, A>, AllocError>
        ensures explained { IfOk result (λ e. HasExplained e (program_of program.now) []) }
        ensures selection { IfOk result (λ e. e.selection ≡ selection.now) }
    {
        Ok(Explainer {
            selection: *selection,
            sessions: Sessions::new(alloc, program)?,
        })
    }
}

impl<'a, A: Allocator + Copy> Observer<A> for Explainer<'a, A> {
    ghost use Rattle.tn_text.specs.Writes.{Grows};
    ghost use Rattle.tn_text.proofs.Growth.{grows_none, grows_on};
    ghost use Rattle.tn_running_node.specs.NodeMoves.{SeesAhead};
    ghost use Rattle.tn_explain.specs.Explainers.{HasExplained, AddsExplanation};

    type Output = Vec<u8, A>;

    type Sight = Outlook;

    ghost looks = { SeesAhead };

    ghost sees = { HasExplained };

    ghost adds = { AddsExplanation };

    ghost reaches = { λ out out'. Grows out.items out'.items };

    fn look(&self, node: &Node<A>, pick: u32) -> Outlook {
        node.outlook(pick)
    }

    fn obey(
        &mut self,
        program: &Program<A>,
        entry: JournalEntry,
        command: &Command<A>,
        out: &mut Vec<u8, A>,
    ) -> Result<(), AllocError> {
        let step = Step {
            selection: &self.selection,
            number: entry.number,
            pick: entry.pick,
            outlook: Outlook::nothing(),
        };
        self.sessions
            .obey(&step, program.functions(), command, out)?;
        Ok(())
    }

    fn see(
        &mut self,
        program: &Program<A>,
        entry: JournalEntry,
        sight: Outlook,
        events: &Vec<Event<A>, A>,
        out: &mut Vec<u8, A>,
    ) -> Result<(), AllocError> {
        let step = Step {
            selection: &self.selection,
            number: entry.number,
            pick: entry.pick,
            outlook: sight,
        };
        self.sessions.see(&step, events, out)?;
        Ok(())
    }

    ghost stays = { λ out. grows_none out.items };

    ghost reaches_on = { λ first now next a b. grows_on a b };
}
