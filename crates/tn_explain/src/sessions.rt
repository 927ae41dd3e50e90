// The sessions of a run, and what they make of a move.
use crate::slots::{Order, obey_each, tell_each};
use crate::step::Step;
use std::alloc::{AllocError, Allocator};
use tn_flags::{Command, Event};
use tn_program::Program;
use tn_script::Function;
use tn_term::Alive;
use tn_trace::{Discard, Slot, absent_sessions, living_after};

/// The sessions of the control list, and who lives.
#[derive(Drop)]
pub(crate) struct Sessions<A: Allocator> {
    pub alloc: A,
    pub living: Alive,
    pub slots: Vec<Slot<A, Discard>, A>,
}

impl<A: Allocator + Copy> Sessions<A> {
    ghost use Rattle.std.specs.Prelude.{IfOk};
    ghost use Rattle.tn_text.specs.Writes.{Grows};
    ghost use Rattle.tn_explain.specs.NamedSessions.{AreUncreatedSessions, ExplainsEvent, ExplainsEvents};
    ghost use Rattle.tn_explain.specs.NamedSessions.{ExplainsMove, ExplainsCommand};

    /// The sessions of a program, before they are created.
    pub fn new(alloc: A, program: &Program<A>) -> Result<Sessions<A>, AllocError>
        ensures { IfOk result (λ s. AreUncreatedSessions program.now s) }
    {
        Ok(Sessions {
            alloc,
            living: Alive::first(program.entries().len()),
            slots: absent_sessions(alloc, program)?,
        })
    }

    /// The sessions see an event of a move. After an `Err` a part of it may be appended.
    fn tell(
        &mut self,
        step: &Step<'_>,
        event: &Event<A>,
        out: &mut Vec<u8, A>,
    ) -> Result<(), AllocError>
        ensures ok { ExplainsEvent step.now event.now self.old self.new out.old out.new result }
        ensures grows { Grows out.old.items out.new.items }
    {
        step.put_event(self.alloc, event, out)?;
        tell_each(self.alloc, step, &mut self.slots, event, out)?;
        self.living = living_after(self.living, event);
        Ok(())
    }

    /// The sessions see several events of a move, in order. After an `Err` a part of it may be appended.
    fn tell_all(
        &mut self,
        step: &Step<'_>,
        events: &Vec<Event<A>, A>,
        out: &mut Vec<u8, A>,
    ) -> Result<(), AllocError>
        ensures ok { ExplainsEvents step.now events.now.items self.old self.new out.old out.new result }
        ensures grows { Grows out.old.items out.new.items }
    {
        for event in events {
            self.tell(step, event, out)?;
        }
        Ok(())
    }

    /// The sessions see the events of a move of a process. After an `Err` a part of it may be appended.
    pub fn see(
        &mut self,
        step: &Step<'_>,
        events: &Vec<Event<A>, A>,
        out: &mut Vec<u8, A>,
    ) -> Result<(), AllocError>
        ensures ok { ExplainsMove step.now events.now.items self.old self.new out.old out.new result }
        ensures grows { Grows out.old.items out.new.items }
    {
        if events.is_empty() {
            step.put_nothing(out)
        } else {
            self.tell_all(step, events, out)
        }
    }

    /// The session that a command names does it. After an `Err` a part of it may be appended.
    pub fn obey(
        &mut self,
        step: &Step<'_>,
        functions: &[Function<A>],
        command: &Command<A>,
        out: &mut Vec<u8, A>,
    ) -> Result<(), AllocError>
        ensures ok { ExplainsCommand step.now functions.now command.now self.old self.new out.old out.new result }
        ensures grows { Grows out.old.items out.new.items }
    {
        let order = Order {
            functions,
            living: self.living,
            command,
        };
        step.put_command(command, out)?;
        obey_each(self.alloc, step, &mut self.slots, &order, out)
    }
}
