// One session of a running node.
ghost use Rattle.std.specs.Prelude.{IfOk};
ghost use Rattle.tn_flags.specs.Views.{event_of};
ghost use Rattle.tn_running_node.specs.NodeSessions.{SeesHere, SeesAsHere, SeesThere};

use crate::lines::{TextLines, push_message};
use crate::messages::Scene;
use crate::node_mark::{NodeMark, change_marks};
use crate::node_run::NodeRun;
use crate::sight::{new_flags_for, sight_after, sight_before};
use std::alloc::{AllocError, Allocator};
use tn_flags::Event;
use tn_node::Outlook;
use tn_session::{Message, Room, Session};

/// A session of a running node: its flags and settings, and the frames that it has marked.
#[derive(Drop)]
pub struct NodeSession<A: Allocator> {
    pub session: Session<A>,
    pub marks: Vec<NodeMark<A>, A>,
}

/// The session sees an event: the lines of what it reports. An error is refused memory.
fn see_here<A: Allocator + Copy>(
    alloc: A,
    session: &mut Session<A>,
    event: &Event<A>,
) -> Result<TextLines<A>, AllocError>
    ensures { IfOk result (SeesHere (event_of event.now) session.old session.new) }
{
    let mut lines = Vec::new(alloc);
    let mut room = Room::new(alloc);
    if let Some(message) = session.tell(event, &mut room)? {
        push_message(alloc, &message, &mut lines)?;
    }
    Ok(lines)
}

impl<A: Allocator + Copy> NodeSession<A> {
    /// The session sees an event of a step of which this was known before it, in a run whose processes were these: the
    /// lines of what it reports, or None where that is this message, which the session here reports. An error is
    /// refused memory.
    pub fn see(
        &mut self,
        alloc: A,
        run: &NodeRun<A>,
        outlook: Outlook,
        event: &Event<A>,
        here: &Option<Message<'_, A>>,
    ) -> Result<Option<TextLines<A>>, AllocError>
        ensures { IfOk result (SeesThere run.now outlook event.now here.now self.old self.new) }
    {
        let Some(look) = self.session.look() else {
            return Err(AllocError);
        };
        let before = sight_before(&look, event);
        let new_flags = look.new_process_flags();
        let flags_there = new_flags_for(&look, event);
        self.session.set_new_process_flags(flags_there);
        let mut room = Room::new(alloc);
        let message = self.session.tell(event, &mut room)?;
        self.session.set_new_process_flags(new_flags);
        let Some(look) = self.session.look() else {
            return Err(AllocError);
        };
        let scene = Scene {
            run,
            outlook,
            marks: &self.marks,
            sight: sight_after(before, &look, event),
        };
        let lines = scene.other_lines(alloc, event, &message, here)?;
        change_marks(alloc, &mut self.marks, &look, event)?;
        Ok(lines)
    }

    /// The same by the rules of the model: of an event that is the same there. The marks stay.
    pub fn see_as_here(&mut self, alloc: A, event: &Event<A>) -> Result<TextLines<A>, AllocError>
        ensures { IfOk result (SeesAsHere (event_of event.now) self.old self.new) }
    {
        let lines = see_here(alloc, &mut self.session, event)?;
        Ok(lines)
    }
}
