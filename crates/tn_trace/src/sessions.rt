// The sessions of the control list side by side.
ghost use Rattle.std.specs.Prelude.{◌≡◌, ◌+◌, IfOk};
ghost use Rattle.std.specs.Option.{option_map};
ghost use Rattle.def_session.specs.State.{alive_after};
ghost use Rattle.tn_term.specs.Views.{tree_of, alive_of};
ghost use Rattle.tn_flags.specs.Views.{event_of};
ghost use Rattle.tn_program.specs.Views.{program_of};
ghost use Rattle.tn_trace.specs.Tracks.{newer_of};
ghost use Rattle.tn_trace.specs.Starts.{AreAtStart};
ghost use Rattle.tn_trace.specs.Events.{EachSees, EachHandsOut};
ghost use Rattle.tn_trace.specs.Commands.{OneObeys, OneReplies};

use crate::item::Item;
use crate::sink::MessageSink;
use crate::slot::Slot;
use std::alloc::{AllocError, Allocator};
use std::mem::replace;
use tn_flags::{Command, Event};
use tn_program::Program;
use tn_script::Function;
use tn_session::EventText;
use tn_term::{Alive, Term};

/// The number of one more session. The control list has at most 128.
fn next_number(count: usize) -> Result<u32, AllocError>
    ensures { IfOk result (λ n. n ≡ count + 1) }
{
    match u32::try_from(count) {
        Ok(number) if number < u32::MAX => Ok(number + 1),
        _ => Err(AllocError),
    }
}

/// The sessions of the control list, before any of them is created.
pub fn absent_sessions<A: Allocator + Copy, K: MessageSink<A> + Drop>(
    alloc: A,
    program: &Program<A>,
) -> Result<Vec<Slot<A, K>, A>, AllocError>
    ensures { IfOk result (λ v. AreAtStart K.keeps (program_of program.now) v.items) }
{
    let mut slots = Vec::new(alloc);
    for command in program.commands() {
        if let Command::SessionCreate { session, .. } = command {
            slots.push(Slot {
                number: next_number(slots.len())?,
                name: session.copy_into(alloc)?,
                session: None,
                kept: K::nothing(alloc),
            })?;
        }
    }
    Ok(slots)
}

/// Who lives after an event.
pub fn living_after<A: Allocator>(living: Alive, event: &Event<A>) -> Alive
    ensures { alive_of result ≡ alive_after (alive_of living) (event_of event.now) }
{
    let mut after = living;
    match event {
        Event::Spawned { pid, .. } => after.add(*pid),
        Event::Exited { pid, .. } => after.remove(*pid),
        _ => {}
    }
    after
}

/// Each session sees an event. Its text is written into the room.
pub(crate) fn tell_each<A: Allocator + Copy, K: MessageSink<A> + Drop>(
    slots: &mut Vec<Slot<A, K>, A>,
    alloc: A,
    event: &Event<A>,
    room: &mut Vec<u8, A>,
    given: &mut Vec<Item<A>, A>,
) -> Result<(), AllocError>
    ensures sessions { EachSees K.keeps event.now slots.old.items slots.new.items result }
    ensures given { EachHandsOut K.keeps K.gives event.now slots.old.items given.old given.new result }
{
    let mut text = EventText::new(event, replace(room, Vec::new(alloc)));
    for place in 0..slots.len() {
        slots[place].tell(alloc, &mut text, given)?;
    }
    *room = text.into_room();
    Ok(())
}

/// The session that the command names does it. None where there is no such session.
pub(crate) fn obey_each<A: Allocator + Copy, K: MessageSink<A> + Drop>(
    slots: &mut Vec<Slot<A, K>, A>,
    alloc: A,
    functions: &[Function<A>],
    living: Alive,
    command: &Command<A>,
) -> Result<Option<Term<A>>, AllocError>
    ensures sessions { OneObeys K.keeps functions.now living command.now slots.old.items slots.new.items result }
    ensures reply { OneReplies K.keeps functions.now living command.now slots.old.items result }
{
    let mut reply = None;
    for place in 0..slots.len() {
        let own = slots[place].obey(alloc, functions, living, command)?;
        reply = newer(own, reply);
    }
    Ok(reply)
}

/// The later of two replies.
fn newer<A: Allocator>(own: Option<Term<A>>, reply: Option<Term<A>>) -> Option<Term<A>>
    ensures { option_map tree_of result ≡ newer_of (option_map tree_of own) (option_map tree_of reply) }
{
    match own {
        Some(term) => Some(term),
        None => reply,
    }
}
