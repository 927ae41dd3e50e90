// What a session makes of an event.
ghost use Rattle.std.specs.Prelude.{◌≡◌, ◌++◌, OnOk, IfSome, None};
ghost use Rattle.std.specs.Option.{IsSomeAnd, option_map};
ghost use Rattle.def_session.specs.Session.{is_silenced};
ghost use Rattle.tn_flags.specs.Views.{event_of};
ghost use Rattle.tn_node.specs.Outlooks.{outlook_seen};
ghost use Rattle.tn_session.specs.Sessions.{value_in};
ghost use Rattle.tn_session.specs.Looks.{look_seen};
ghost use Rattle.tn_text.specs.Writes.{Grows};
ghost use Rattle.tn_explain.specs.SessionLines.{Makes, MakesLive, ReportsLines};

use crate::clauses::Evaluation;
use crate::inheritance::both_of;
use crate::limits::limit_at;
use crate::line::{Lines, put_text};
use crate::step_differences::StepDifferences;
use std::alloc::{AllocError, Allocator};
use tn_flags::Event;
use tn_node::Outlook;
use tn_session::{Look, Message, Room, Session};
use tn_term::Atom;

/// Appends, a line each, what the session of this name makes of an event of a step of which this was known before it,
/// and has the session see the event. One that was destroyed makes nothing of it. After an `Err`, which is refused
/// memory, a part of it may stand there, and the session is spent, as it was, or past the event.
pub fn put_event_lines<A: Allocator + Copy>(
    alloc: A,
    name: &Atom<A>,
    session: &mut Session<A>,
    outlook: Outlook,
    event: &Event<A>,
    out: &mut Vec<u8, A>,
) -> Result<(), AllocError>
    ensures ok { OnOk result (IsSomeAnd (value_in session.old) (λ s. Makes (outlook_seen outlook) s
        (event_of event.now) name.now (value_in session.new) out.old.items out.new.items)) }
    ensures grows { Grows out.old.items out.new.items }
{
    let lines = Lines { alloc, name };
    let Some(look) = session.look() else {
        return Err(AllocError);
    };
    if !look.is_live() {
        let mut room = Room::new(alloc);
        session.tell(event, &mut room)?;
        return Ok(());
    }
    match both_of(event) {
        Some((giver, taker)) => lines.put_inheriting(session, event, giver, taker, out),
        None => lines.put_evaluated(session, outlook, event, out),
    }
}

/// Whether `silent` of its process silences the message of an event: that of a call, a return or an exception.
fn is_silenced<A: Allocator + Copy>(look: &Look<'_, A>, event: &Event<A>) -> bool
    ensures { result ≡ is_silenced (look_seen look.now) (event_of event.now) }
{
    match event {
        Event::Called { pid, .. } | Event::Returned { pid, .. } | Event::Raised { pid, .. } => look
            .flags_at(*pid)
            .silent,
        _ => false,
    }
}

impl<A: Allocator + Copy> Lines<'_, A> {
    /// Appends what a live session makes of an event by which no process inherits flags.
    fn put_evaluated(
        &self,
        session: &mut Session<A>,
        outlook: Outlook,
        event: &Event<A>,
        out: &mut Vec<u8, A>,
    ) -> Result<(), AllocError>
        ensures ok { OnOk result (IsSomeAnd (value_in session.old) (λ s.
            MakesLive None (outlook_seen outlook) s event.now self.now (value_in session.new) out.old out.new)) }
        ensures grows { Grows out.old.items out.new.items }
    {
        let Some(look) = session.look() else {
            return Err(AllocError);
        };
        let before = StepDifferences::of(&look, outlook, event);
        let limit = limit_at(&look, outlook, event);
        let evaluation = self.put_before(&look, event, out)?;
        let mut behind = Vec::new(self.alloc);
        self.put_after(&look, event, evaluation, &mut behind)?;
        let mut room = Room::new(self.alloc);
        let message = session.tell(event, &mut room)?;
        let steps = before.after(outlook, event, message.is_some());
        self.put_reported(session, evaluation, event, &message, out)?;
        put_text(&behind, out)?;
        self.put_limit(limit, out)?;
        self.put_step_differences(steps, out)
    }

    /// Appends the message of an event that was evaluated, or why there is none: `silent` silences it, or else
    /// it is `false`.
    fn put_reported(
        &self,
        session: &Session<A>,
        evaluation: Evaluation,
        event: &Event<A>,
        message: &Option<Message<'_, A>>,
        out: &mut Vec<u8, A>,
    ) -> Result<(), AllocError>
        ensures ok { OnOk result (IfSome (value_in session.now) (λ s.
            ReportsLines s evaluation event.now message.now self.now out.old out.new)) }
        ensures grows { Grows out.old.items out.new.items }
    {
        let Evaluation::Done { .. } = evaluation else {
            return Ok(());
        };
        if let Some(message) = message {
            return self.tell(message, out);
        }
        let Some(look) = session.look() else {
            return Err(AllocError);
        };
        if is_silenced(&look, event) {
            self.say(b"silent", out)
        } else {
            self.say(b"message false", out)
        }
    }
}
