// One session here and on a running node.
ghost use Rattle.std.specs.Prelude.{◌≡◌, IfOk};
ghost use Rattle.tn_flags.specs.Views.{event_of};
ghost use Rattle.tn_text.specs.Writes.{Grows};
ghost use Rattle.std.specs.Option.{option_map};
ghost use Rattle.tn_term.specs.Views.{tree_of};
ghost use Rattle.def_term.specs.Alive.{Alive};
ghost use Rattle.def_script.specs.Exports.{Exports};
ghost use Rattle.def_running_node.specs.NodeComparisons as comparison;
ghost use Rattle.tn_session.specs.Looks.{is_live};
ghost use Rattle.tn_running_node.specs.Pairs.{SeesSilently, PairSeesBoth, PairSeesElsewhere};
ghost use Rattle.tn_running_node.specs.Pairs.{IsPair, HasOpenness, IsDeterminedAfter, PairSees, PairSeesOwnLink};
ghost use Rattle.tn_running_node.specs.Pairs.{absent_pairs, PairObeysThere, PairObeys};

use crate::hides::hides;
use crate::lines::{LineKinds, both_lines, lines_of_reply, put_lines};
use crate::node_run::NodeRun;
use crate::node_session::NodeSession;
use crate::opens::opens;
use crate::replies::command_there;
use crate::session_name::is_session;
use std::alloc::{AllocError, Allocator};
use tn_flags::{Command, Event};
use tn_node::Outlook;
use tn_script::Function;
use tn_session::{Room, Session};
use tn_term::Term;
use tn_trace::{Discard, Slot};

/// A session of the control list here, the same on a running node once it is created, and whether what it reports
/// there is determined so far.
#[derive(Drop)]
pub struct SessionPair<A: Allocator> {
    pub here: Slot<A, Discard>,
    pub there: Option<NodeSession<A>>,
    pub is_determined: bool,
}

/// Why what a session reports isn't determined from an event on: its evaluation, or a message of it that isn't known.
#[derive(Clone, Copy, Debug, PartialEq, Eq, Drop)]
pub struct Openness {
    pub opens: bool,
    pub hides: bool,
}

/// A step of the processes of a running node: what they are before an event, and what was known of the step before it.
#[derive_where(Clone, Copy)]
pub struct NodeStep<'a, A: Allocator> {
    pub run: &'a NodeRun<A>,
    pub outlook: Outlook,
}

/// The pairs of the sessions that are selected, which aren't created yet: of that of a name alone, where one is given.
pub fn absent_pairs<A: Allocator + Copy>(
    alloc: A,
    slots: Vec<Slot<A, Discard>, A>,
    session: Option<&str>,
) -> Result<Vec<SessionPair<A>, A>, AllocError>
    ensures { IfOk result (λ v. v.items ≡ absent_pairs (option_map (λ s. s.now) session.entry) slots.items) }
{
    let mut pairs = Vec::new(alloc);
    for slot in slots {
        if is_session(session, &slot.name) {
            pairs.push(SessionPair {
                here: slot,
                there: None,
                is_determined: true,
            })?;
        }
    }
    Ok(pairs)
}

/// The session sees an event of which it reports nothing. An error is refused memory.
fn see_silently<A: Allocator + Copy>(
    alloc: A,
    session: &mut Session<A>,
    event: &Event<A>,
) -> Result<(), AllocError>
    ensures { IfOk result (λ _. SeesSilently (event_of event.now) session.old session.new) }
{
    let mut room = Room::new(alloc);
    session.tell(event, &mut room)?;
    Ok(())
}

impl<A: Allocator + Copy> SessionPair<A> {
    /// Both sessions, which are live, see an event, after which this says whether what is reported there is determined,
    /// and the lines between them are appended.
    fn see_both(
        &mut self,
        alloc: A,
        step: NodeStep<'_, A>,
        event: &Event<A>,
        is_determined: bool,
        out: &mut Vec<u8, A>,
    ) -> Result<LineKinds, AllocError>
        ensures ok { IfOk result (PairSeesBoth step.entry event.now is_determined self.old self.new out.old out.new) }
        ensures grows { Grows out.old.items out.new.items }
    {
        let Some(here) = &mut self.here.session else {
            return Err(AllocError);
        };
        let Some(there) = &mut self.there else {
            return Err(AllocError);
        };
        let mut room = Room::new(alloc);
        let message = here.tell(event, &mut room)?;
        let lines = there.see(alloc, step.run, step.outlook, event, &message)?;
        let (lines_here, lines_there) = both_lines(alloc, &message, lines)?;
        let was = self.is_determined;
        self.is_determined = is_determined;
        let kinds = put_lines(
            &self.here.name,
            was,
            is_determined,
            &lines_here,
            &lines_there,
            out,
        )?;
        Ok(kinds)
    }

    /// Both sessions, which aren't live, see an event.
    fn see_elsewhere(&mut self, alloc: A, event: &Event<A>) -> Result<(), AllocError>
        ensures { IfOk result (λ _. PairSeesElsewhere event.now self.old self.new) }
    {
        if let Some(session) = &mut self.here.session {
            see_silently(alloc, session, event)?;
        }
        if let Some(there) = &mut self.there {
            see_silently(alloc, &mut there.session, event)?;
        }
        Ok(())
    }

    /// Whether the session is there: created, and not destroyed. An error is a session that is spent.
    fn is_live(&self) -> Result<bool, AllocError>
        ensures { IfOk result (λ b. (o : Exports) (living : Alive) (c : comparison.SessionPair) →
            IsPair o living c self.now → b ≡ is_live c.here.phase) }
    {
        let Some(session) = &self.here.session else {
            return Ok(false);
        };
        let Some(look) = session.look() else {
            return Err(AllocError);
        };
        Ok(look.is_live())
    }

    /// What isn't determined of an event.
    fn openness(&self, alloc: A, outlook: Outlook, event: &Event<A>) -> Result<Openness, AllocError>
        ensures { IfOk result (HasOpenness outlook event.now self.now) }
    {
        let Some(there) = &self.there else {
            return Err(AllocError);
        };
        let Some(look) = there.session.look() else {
            return Err(AllocError);
        };
        let opens = opens(alloc, &look, event)?;
        let hides = hides(&look, outlook, event);
        Ok(Openness { opens, hides })
    }

    /// Whether what is reported there is determined after an event, which is evaluated only where it is so before it.
    fn is_determined_after(
        &self,
        alloc: A,
        step: NodeStep<'_, A>,
        event: &Event<A>,
    ) -> Result<bool, AllocError>
        ensures { IfOk result (IsDeterminedAfter step.entry event.now self.now) }
    {
        let run_is_determined = step.run.is_determined_after(step.outlook, event);
        if !(self.is_determined & run_is_determined) {
            return Ok(false);
        }
        let openness = self.openness(alloc, step.outlook, event)?;
        Ok(!openness.opens & !openness.hides)
    }

    /// Both sessions see an event of a step, and the lines between them are appended. After an `Err`, which is refused
    /// memory, a part of them may stand there, and the sessions may be spent.
    pub fn see(
        &mut self,
        alloc: A,
        step: NodeStep<'_, A>,
        event: &Event<A>,
        out: &mut Vec<u8, A>,
    ) -> Result<LineKinds, AllocError>
        ensures ok { IfOk result (PairSees step.entry event.now self.old self.new out.old out.new) }
        ensures grows { Grows out.old.items out.new.items }
    {
        if !self.is_live()? {
            self.see_elsewhere(alloc, event)?;
            return Ok(LineKinds::none());
        }
        let is_determined = self.is_determined_after(alloc, step, event)?;
        let kinds = self.see_both(alloc, step, event, is_determined, out)?;
        Ok(kinds)
    }

    /// A process links itself to itself, or unlinks itself from itself: the line that the session has of this event on
    /// the node is appended. It changes neither of the two sessions, but for whether what they report is determined.
    pub fn see_own_link(
        &mut self,
        alloc: A,
        run: &NodeRun<A>,
        event: &Event<A>,
        out: &mut Vec<u8, A>,
    ) -> Result<LineKinds, AllocError>
        ensures ok { IfOk result (PairSeesOwnLink run.now event.now self.old self.new out.old out.new) }
        ensures grows { Grows out.old.items out.new.items }
    {
        if !self.is_live()? {
            return Ok(LineKinds::none());
        }
        let Some(there) = &mut self.there else {
            return Err(AllocError);
        };
        let lines_there = there.see_as_here(alloc, event)?;
        let lines_here = Vec::new(alloc);
        let was = self.is_determined;
        let is = was & run.is_determined;
        self.is_determined = is;
        let kinds = put_lines(&self.here.name, was, is, &lines_here, &lines_there, out)?;
        Ok(kinds)
    }

    /// What a command of the session does to it on a node, whose processes are these, and its reply there.
    fn obey_there(
        &mut self,
        alloc: A,
        run: &NodeRun<A>,
        functions: &[Function<A>],
        command: &Command<A>,
    ) -> Result<Term<A>, AllocError>
        ensures { IfOk result (λ t. PairObeysThere run.now functions.now command.now self.old self.new (tree_of t)) }
    {
        if let Some(there) = &mut self.there {
            return Ok(command_there(alloc, functions, &mut there.session, command)?);
        }
        let mut slot = Slot {
            number: self.here.number,
            name: self.here.name.copy_into(alloc)?,
            session: None,
            kept: Discard,
        };
        let Some(reply) = slot.obey(alloc, functions, run.alive, command)? else {
            return Err(AllocError);
        };
        let Slot { session, .. } = slot;
        let Some(session) = session else {
            return Ok(reply);
        };
        let marks = Vec::new(alloc);
        self.there = Some(NodeSession { session, marks });
        Ok(reply)
    }

    /// Where a command is to this session, it does it here and on a node, whose processes are these, and the lines
    /// between both replies are appended. After an `Err`, which is refused memory, a part of them may stand there, and
    /// the sessions may be spent.
    pub fn obey(
        &mut self,
        alloc: A,
        run: &NodeRun<A>,
        functions: &[Function<A>],
        command: &Command<A>,
        out: &mut Vec<u8, A>,
    ) -> Result<LineKinds, AllocError>
        ensures ok { IfOk result (PairObeys run.now functions.now command.now self.old self.new out.old out.new) }
        ensures grows { Grows out.old.items out.new.items }
    {
        let Some(here) = self.here.obey(alloc, functions, run.alive, command)? else {
            return Ok(LineKinds::none());
        };
        let there = self.obey_there(alloc, run, functions, command)?;
        let lines_here = lines_of_reply(alloc, &here)?;
        let lines_there = lines_of_reply(alloc, &there)?;
        let was = self.is_determined;
        let is = was & run.is_determined;
        self.is_determined = is;
        let kinds = put_lines(&self.here.name, was, is, &lines_here, &lines_there, out)?;
        Ok(kinds)
    }
}
