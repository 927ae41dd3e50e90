// What explains the moves of a run that are chosen by a message.
ghost use Rattle.std.specs.Prelude.{◌≡◌, if◌then◌else◌, take};
ghost use Rattle.tn_message_choice.specs.Choices.{session_asked};
ghost use Rattle.tn_explain.specs.Filters.{selection_seen};

use crate::explainer::Explainer;
use std::alloc::{AllocError, Allocator};
use tn_flags::{Command, Event};
use tn_message_choice::{Choosers, MessageChoice, MessageQuestion};
use tn_node::{Node, Outlook};
use tn_program::Program;
use tn_trace::{JournalEntry, Observer};

/// What explains a run, the message by which its moves are chosen, and the sessions that choose them.
#[derive(Drop)]
pub(crate) struct MessageExplainer<'a, A: Allocator> {
    pub explainer: Explainer<'a, A>,
    pub choice: MessageChoice<'a>,
    pub choosers: Choosers<A>,
}

/// Takes back what was written of a move from this length on, unless it is chosen.
fn leave_out<A: Allocator>(is_chosen: bool, length: usize, out: &mut Vec<u8, A>)
    ensures { out.new.items ≡ (if is_chosen then out.old.items else take length out.old.items) }
{
    if !is_chosen {
        out.truncate(length);
    }
}

impl<'a, A: Allocator + Copy> MessageExplainer<'a, A> {
    /// What is asked of the messages: of those of the session that is selected, where one is.
    fn question(&self) -> MessageQuestion<'a>
        ensures choice { result.choice ≡ self.now.choice }
        ensures session { session_asked result ≡ (selection_seen self.now.explainer.selection).session }
    {
        MessageQuestion {
            choice: self.choice,
            session: self.explainer.selection.session,
        }
    }
}

impl<'a, A: Allocator + Copy> Observer<A> for MessageExplainer<'a, A> {
    ghost use Rattle.tn_text.specs.Writes.{Grows};
    ghost use Rattle.tn_text.proofs.Growth.{grows_none, grows_on};
    ghost use Rattle.tn_running_node.specs.NodeMoves.{SeesAhead};
    ghost use Rattle.tn_explain.specs.Explainers.{HasExplainedChosen, AddsChosenExplanation};

    type Output = Vec<u8, A>;

    type Sight = Outlook;

    ghost looks = { SeesAhead };

    ghost sees = { HasExplainedChosen };

    ghost adds = { AddsChosenExplanation };

    ghost reaches = { λ out out'. Grows out.items out'.items };

    fn look(&self, node: &Node<A>, pick: u32) -> Outlook {
        node.outlook(pick)
    }

    fn obey(
        &mut self,
        program: &Program<A>,
        entry: JournalEntry,
        command: &Command<A>,
        out: &mut Vec<u8, A>,
    ) -> Result<(), AllocError> {
        let length = out.len();
        self.explainer.obey(program, entry, command, out)?;
        self.choosers.obey(program.functions(), command)?;
        leave_out(false, length, out);
        Ok(())
    }

    fn see(
        &mut self,
        program: &Program<A>,
        entry: JournalEntry,
        sight: Outlook,
        events: &Vec<Event<A>, A>,
        out: &mut Vec<u8, A>,
    ) -> Result<(), AllocError> {
        let length = out.len();
        let question = self.question();
        self.explainer.see(program, entry, sight, events, out)?;
        let is_chosen = self.choosers.see(&question, events)?;
        leave_out(is_chosen, length, out);
        Ok(())
    }

    ghost stays = { λ out. grows_none out.items };

    ghost reaches_on = { λ first now next a b. grows_on a b };
}
