// Marks, and the end of a process.
ghost use Rattle.std.specs.Prelude.{◌≡◌, ◌++◌, OnOk};
ghost use Rattle.std.specs.Option.{option_map};
ghost use Rattle.def_explain.specs.Accounts.{line_where, marked_lines};
ghost use Rattle.tn_flags.specs.Views.{flags_of};
ghost use Rattle.tn_text.specs.Writes.{Grows};
ghost use Rattle.tn_session.specs.Views.{mark_kind_seen};
ghost use Rattle.tn_explain.specs.Evaluations.{mark_by, AtTheEnd};
ghost use Rattle.tn_explain.specs.LineParts.{said_where, lost_lines};
ghost use Rattle.tn_explain.specs.Lines.{Adds};

use crate::clauses::Evaluation;
use crate::line::{Lines, begin};
use std::alloc::{AllocError, Allocator};
use tn_flags::{Event, Flags};
use tn_session::{Kind, Look};
use tn_text::write_pid;
use tn_verdict::put_flags;

/// The mark that the frame of a call gets, if it gets one.
fn mark_by(evaluation: Evaluation) -> Option<Kind>
    ensures { option_map mark_kind_seen result ≡ mark_by evaluation }
{
    match evaluation {
        Evaluation::Refused => None,
        Evaluation::Done { mark } => mark,
    }
}

impl<A: Allocator + Copy> Lines<'_, A> {
    /// Appends the line of what is said, where it is.
    fn say_where(&self, holds: bool, text: &[u8], out: &mut Vec<u8, A>) -> Result<(), AllocError>
        ensures ok { OnOk result (Adds self.now (said_where holds text.now) out.old out.new) }
        ensures grows { Grows out.old.items out.new.items }
    {
        if holds { self.say(text, out) } else { Ok(()) }
    }

    /// Appends the mark that a call gets, if it gets one.
    fn put_mark(&self, mark: Option<Kind>, out: &mut Vec<u8, A>) -> Result<(), AllocError>
        ensures ok { OnOk result (Adds self.now (marked_lines (option_map mark_kind_seen mark)) out.old out.new) }
        ensures grows { Grows out.old.items out.new.items }
    {
        match mark {
            None => Ok(()),
            Some(Kind::Returns) => self.say(b"the call is marked", out),
            Some(Kind::Exceptions) => self.say(b"the call is marked for exceptions", out),
        }
    }

    /// Appends a line of a process, where there is something to say of it.
    pub(crate) fn put_of_process(
        &self,
        pid: u32,
        text: &[u8],
        out: &mut Vec<u8, A>,
    ) -> Result<(), AllocError>
        ensures ok { OnOk result (Adds self.now (line_where pid text.now) out.old out.new) }
        ensures grows { Grows out.old.items out.new.items }
    {
        if text.is_empty() {
            return Ok(());
        }
        begin(self.name, out)?;
        write_pid(pid, out)?;
        out.extend_from_slice(text)?;
        out.push(b'\n')?;
        Ok(())
    }

    /// Appends the flags that a process loses at its end.
    fn put_lost(&self, pid: u32, flags: Flags, out: &mut Vec<u8, A>) -> Result<(), AllocError>
        ensures ok { OnOk result (Adds self.now (lost_lines pid (flags_of flags)) out.old out.new) }
        ensures grows { Grows out.old.items out.new.items }
    {
        let mut lost = Vec::new(self.alloc);
        put_flags(b" loses ", flags, &mut lost)?;
        self.put_of_process(pid, &lost, out)
    }

    /// Appends the lines that stand at the end: what becomes of the mark of a frame, and of the flags of a process
    /// that exits. They are known before the session sees the event.
    pub(crate) fn put_after(
        &self,
        look: &Look<'_, A>,
        event: &Event<A>,
        evaluation: Evaluation,
        out: &mut Vec<u8, A>,
    ) -> Result<(), AllocError>
        ensures ok { AtTheEnd look.now event.now evaluation (λ ls. OnOk result (Adds self.now ls out.old out.new)) }
        ensures grows { Grows out.old.items out.new.items }
    {
        match event {
            Event::Called { .. } => self.put_mark(mark_by(evaluation), out),
            Event::Returned { pid, depth, .. } | Event::Raised { pid, depth, .. } => {
                self.say_where(look.is_marked(*pid, *depth), b"the mark is gone", out)
            }
            Event::Exited { pid, .. } => self.put_lost(*pid, look.flags_at(*pid), out),
            Event::Sent { .. }
            | Event::Received { .. }
            | Event::Spawn { .. }
            | Event::Spawned { .. }
            | Event::Linked { .. }
            | Event::Unlinked { .. }
            | Event::GettingLinked { .. }
            | Event::GettingUnlinked { .. } => Ok(()),
        }
    }
}
