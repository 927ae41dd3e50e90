// What keeps the messages and replies of a run.
use crate::item::Item;
use crate::journal::JournalEntry;
use crate::observer::Observer;
use crate::reply::reply_or_badarg;
use crate::sessions::{absent_sessions, living_after, obey_each, tell_each};
use crate::sink::MessageSink;
use crate::slot::Slot;
use std::alloc::{AllocError, Allocator};
use tn_flags::{Command, Event};
use tn_node::Node;
use tn_program::Program;
use tn_term::Alive;

/// The sessions of a run with what is kept of their messages, who lives, and what is kept of the replies.
#[derive(Drop)]
pub struct Recorder<A: Allocator, K> {
    pub(crate) alloc: A,
    pub living: Alive,
    pub slots: Vec<Slot<A, K>, A>,
    pub(crate) replies: K,
    /// Room for the text of an event.
    pub(crate) room: Vec<u8, A>,
}

impl<A: Allocator + Copy, K: MessageSink<A> + Drop> Recorder<A, K> {
    ghost use Rattle.std.specs.Prelude.{[], IfOk};
    ghost use Rattle.tn_program.specs.Views.{program_of};
    ghost use Rattle.tn_trace.specs.Recorders.{HasRecorded};
    ghost use Rattle.tn_trace.specs.Events.{AllSee, AllHandOut, AllSeeEach, AllHandOutEach, OnlySessions};
    ghost use Rattle.tn_trace.specs.Commands.{TakesCommand};

    /// The recorder of a program's run before any pick.
    pub fn new(alloc: A, program: &Program<A>) -> Result<Recorder<A, K>, AllocError>
        ensures { IfOk result (λ r. HasRecorded K.keeps r (program_of program.now) []) }
    {
        Ok(Recorder {
            alloc,
            living: Alive::first(program.entries().len()),
            slots: absent_sessions(alloc, program)?,
            replies: K::nothing(alloc),
            room: Vec::new(alloc),
        })
    }

    /// Each session sees an event.
    fn tell(&mut self, event: &Event<A>, given: &mut Vec<Item<A>, A>) -> Result<(), AllocError>
        ensures sessions { AllSee K.keeps event.now self.old self.new result }
        ensures given { AllHandOut K.keeps K.gives event.now self.old given.old given.new result }
        ensures others { OnlySessions self.old self.new result }
    {
        tell_each(&mut self.slots, self.alloc, event, &mut self.room, given)?;
        self.living = living_after(self.living, event);
        Ok(())
    }

    /// Each session sees the events of a move, in order.
    fn tell_all(
        &mut self,
        events: &Vec<Event<A>, A>,
        given: &mut Vec<Item<A>, A>,
    ) -> Result<(), AllocError>
        ensures sessions { AllSeeEach K.keeps events.now.items self.old self.new result }
        ensures given { AllHandOutEach K.keeps K.gives events.now.items self.old given.old given.new result }
        ensures others { OnlySessions self.old self.new result }
    {
        for event in events {
            self.tell(event, given)?;
        }
        Ok(())
    }

    /// A command goes to its session, and the reply to the replies.
    fn take_command(&mut self, program: &Program<A>, command: &Command<A>) -> Result<(), AllocError>
        ensures { TakesCommand K.keeps (program_of program.now) command.now self.old self.new result }
    {
        let functions = program.functions();
        let reply = obey_each(&mut self.slots, self.alloc, functions, self.living, command)?;
        let reply = reply_or_badarg(self.alloc, reply)?;
        self.replies.keep_reply(self.alloc, &reply)?;
        Ok(())
    }
}

impl<A: Allocator + Copy, K: MessageSink<A> + Drop> Observer<A> for Recorder<A, K> {
    ghost use Rattle.tn_trace.specs.Recorders.{HasRecorded, HandsOutAnswer};

    type Output = Vec<Item<A>, A>;

    type Sight = ();

    ghost looks = { λ _ _ _ _. Unit {0} };

    ghost sees = { HasRecorded K.keeps };

    ghost adds = { HandsOutAnswer K.gives };

    ghost reaches = { λ _ _. Unit {0} };

    fn look(&self, _node: &Node<A>, _pick: u32) {}

    fn obey(
        &mut self,
        program: &Program<A>,
        entry: JournalEntry,
        command: &Command<A>,
        out: &mut Self::Output,
    ) -> Result<(), AllocError> {
        self.take_command(program, command)?;
        Ok(())
    }

    fn see(
        &mut self,
        program: &Program<A>,
        entry: JournalEntry,
        _sight: (),
        events: &Vec<Event<A>, A>,
        out: &mut Self::Output,
    ) -> Result<(), AllocError> {
        self.tell_all(events, out)?;
        Ok(())
    }

    ghost stays = { λ out. tt };

    ghost reaches_on = { λ first now next a b. tt };
}
