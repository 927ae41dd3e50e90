// What is known of an event before the session sees it.
ghost use Rattle.std.specs.Prelude.{◌≡◌, IfOk};
ghost use Rattle.tn_flags.specs.Views.{event_of};
ghost use Rattle.tn_text.specs.Writes.{Grows};
ghost use Rattle.tn_explain.specs.Evaluations.{Evaluates, GivesWhere};
ghost use Rattle.tn_explain.specs.Events.{EachReturn, EachRaise};

use crate::clauses::Evaluation;
use crate::line::Lines;
use std::alloc::{AllocError, Allocator};
use tn_flags::Event;
use tn_session::{Kind, Look};

impl<A: Allocator + Copy> Lines<'_, A> {
    /// Appends why an event isn't evaluated, or what becomes of the clauses of the setting that concerns it.
    pub(crate) fn put_before<'a>(
        &self,
        look: &Look<'a, A>,
        event: &'a Event<A>,
        out: &mut Vec<u8, A>,
    ) -> Result<Evaluation, AllocError>
        ensures ok { IfOk result (Evaluates self.now look.now (event_of event.now) out.old out.new) }
        ensures grows { Grows out.old.items out.new.items }
    {
        match event {
            Event::Sent {
                pid,
                message,
                to,
                ..
            } => self.put_send(look, *pid, message.term(), *to, out),
            Event::Received {
                pid,
                sender,
                message,
            } => self.put_receive(look, *pid, *sender, message.term(), out),
            Event::Called { pid, call } => self.put_call(look, *pid, call, out),
            Event::Returned { pid, depth, .. } => self.put_return(look, *pid, *depth, out),
            Event::Raised { pid, depth, .. } => self.put_raise(look, *pid, *depth, out),
            Event::Spawn { pid, .. }
            | Event::Spawned { pid, .. }
            | Event::Exited { pid, .. }
            | Event::Linked { pid, .. }
            | Event::Unlinked { pid, .. }
            | Event::GettingLinked { pid, .. }
            | Event::GettingUnlinked { pid, .. } => {
                self.put_where(look.flags_at(*pid).procs, b"no flag procs", out)
            }
        }
    }

    /// Appends why an event isn't evaluated, where it isn't; one that is evaluates to no effects.
    pub(crate) fn put_where(
        &self,
        evaluated: bool,
        why: &[u8],
        out: &mut Vec<u8, A>,
    ) -> Result<Evaluation, AllocError>
        ensures ok { IfOk result (λ r. GivesWhere self.now.name.now evaluated why.now out.old.items out.new.items r) }
        ensures grows { Grows out.old.items out.new.items }
    {
        if evaluated {
            return Ok(Evaluation::Done { mark: None });
        }
        self.say(why, out)?;
        Ok(Evaluation::Refused)
    }

    /// Appends why a return isn't reported, where it isn't.
    fn put_return(
        &self,
        look: &Look<'_, A>,
        pid: u32,
        depth: usize,
        out: &mut Vec<u8, A>,
    ) -> Result<Evaluation, AllocError>
        ensures ok { EachReturn pid depth (λ e. IfOk result (Evaluates self.now look.now e out.old out.new)) }
        ensures grows { Grows out.old.items out.new.items }
    {
        if !look.is_marked(pid, depth) {
            return self.put_where(false, b"the call has no mark", out);
        }
        self.put_where(look.flags_at(pid).call, b"no flag call", out)
    }

    /// Appends why an exception isn't reported, where it isn't.
    fn put_raise(
        &self,
        look: &Look<'_, A>,
        pid: u32,
        depth: usize,
        out: &mut Vec<u8, A>,
    ) -> Result<Evaluation, AllocError>
        ensures ok { EachRaise pid depth (λ e. IfOk result (Evaluates self.now look.now e out.old out.new)) }
        ensures grows { Grows out.old.items out.new.items }
    {
        match look.mark_of(pid, depth) {
            None => self.put_where(false, b"the call has no mark", out),
            Some(Kind::Returns) => {
                self.put_where(false, b"the call is marked for returns alone", out)
            }
            Some(Kind::Exceptions) => {
                self.put_where(look.flags_at(pid).call, b"no flag call", out)
            }
        }
    }
}
