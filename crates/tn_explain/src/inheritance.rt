// What a child or a partner inherits.
ghost use Rattle.std.specs.Prelude.{◌≡◌, ◌++◌, ℕ, OnOk, Option, Some, map};
ghost use Rattle.std.specs.Option.{IsSomeAnd, option_map};
ghost use Rattle.def_explain.specs.Accounts.{line_where, changed_text};
ghost use Rattle.tn_flags.specs.Views.{event_of, flags_of};
ghost use Rattle.tn_session.specs.Sessions.{value_in};
ghost use Rattle.tn_session.specs.Messages.{message_seen};
ghost use Rattle.tn_text.specs.Writes.{Grows};
ghost use Rattle.tn_explain.specs.SessionLines.{MakesOfBoth};
ghost use Rattle.tn_explain.specs.LineParts.{both_of, changed_lines, reported_or_no_flag};
ghost use Rattle.tn_explain.specs.Lines.{Adds};

use crate::differences::{Change, inherited_difference};
use crate::line::Lines;
use std::alloc::{AllocError, Allocator};
use tn_flags::Event;
use tn_session::{Message, Room, Session};
use tn_verdict::put_flags;

/// The process that gives flags and the one that inherits them, where the event is of that.
pub(crate) fn both_of<A: Allocator>(event: &Event<A>) -> Option<(u32, u32)>
    ensures { result ≡ both_of (event_of event.now) }
{
    match event {
        Event::Spawned { pid, parent, .. } => Some((*parent, *pid)),
        Event::GettingLinked { pid, other } => Some((*other, *pid)),
        Event::Sent { .. }
        | Event::Received { .. }
        | Event::Called { .. }
        | Event::Returned { .. }
        | Event::Raised { .. }
        | Event::Spawn { .. }
        | Event::Exited { .. }
        | Event::Linked { .. }
        | Event::Unlinked { .. }
        | Event::GettingUnlinked { .. } => None,
    }
}

impl<A: Allocator + Copy> Lines<'_, A> {
    /// Appends the flags that a process has lost and those that it has got, where there are any.
    fn put_changed(&self, pid: u32, flags: Change, out: &mut Vec<u8, A>) -> Result<(), AllocError>
        ensures ok { OnOk result
            (Adds self.now (changed_lines pid (flags_of flags.old) (flags_of flags.new)) out.old out.new) }
        ensures grows { Grows out.old.items out.new.items }
    {
        let mut changed = Vec::new(self.alloc);
        put_flags(b" loses ", flags.old.without(flags.new), &mut changed)?;
        put_flags(b" gets ", flags.new.without(flags.old), &mut changed)?;
        self.put_of_process(pid, &changed, out)
    }

    /// Appends what a live session makes of an event by which a process inherits flags of another, which no
    /// specification is evaluated for: what becomes of the flags of both, and the message, or that the process
    /// has no flag for it. The flags stand in the session once it has seen the event.
    pub(crate) fn put_inheriting(
        &self,
        session: &mut Session<A>,
        event: &Event<A>,
        giver: u32,
        taker: u32,
        out: &mut Vec<u8, A>,
    ) -> Result<(), AllocError>
        ensures ok { OnOk result (IsSomeAnd (value_in session.old) (λ s.
            MakesOfBoth giver taker s event.now self.now (value_in session.new) out.old out.new)) }
        ensures grows { Grows out.old.items out.new.items }
    {
        let Some(look) = session.look() else {
            return Err(AllocError);
        };
        let given_by = look.flags_at(giver);
        let had = look.flags_at(taker);
        let mut room = Room::new(self.alloc);
        let message = session.tell(event, &mut room)?;
        let Some(look) = session.look() else {
            return Err(AllocError);
        };
        let of_giver = Change {
            old: given_by,
            new: look.flags_at(giver),
        };
        let of_taker = Change {
            old: had,
            new: look.flags_at(taker),
        };
        self.put_changed(giver, of_giver, out)?;
        self.put_changed(taker, of_taker, out)?;
        self.put_message(&message, out)?;
        self.put_event_difference(inherited_difference(event, of_giver, of_taker), out)
    }

    /// Appends the message, or that the process has no flag for it.
    fn put_message(
        &self,
        message: &Option<Message<'_, A>>,
        out: &mut Vec<u8, A>,
    ) -> Result<(), AllocError>
        ensures ok { OnOk result
            (Adds self.now (reported_or_no_flag (option_map message_seen message.now)) out.old out.new) }
        ensures grows { Grows out.old.items out.new.items }
    {
        match message {
            Some(message) => self.tell(message, out),
            None => self.say(b"no flag procs", out),
        }
    }
}
