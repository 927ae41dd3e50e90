// The sessions of the control list side by side, each seeing what a move shows.
ghost use Rattle.tn_message_choice.specs.SlotChoices.{SessionSees, SlotChooses, SlotsChoose, SlotsFollow};

use crate::choice::MessageQuestion;
use std::alloc::{AllocError, Allocator};
use tn_flags::{Command, Event};
use tn_running_node::is_session;
use tn_script::Function;
use tn_session::Session;
use tn_term::{Alive, Term};
use tn_trace::{Discard, Slot};

/// The message that a session sends of an event; one that isn't there sends none.
fn see_session<A: Allocator + Copy>(
    session: &mut Option<Session<A>>,
    event: &Event<A>,
) -> Result<Option<Term<A>>, AllocError>
    ensures { SessionSees event.now session.old session.new result }
{
    match session {
        Some(session) => session.event(event),
        None => Ok(None),
    }
}

/// A session sees an event: whether it chooses it, where it is asked about it.
fn see_one<A: Allocator + Copy>(
    alloc: A,
    question: &MessageQuestion<'_>,
    would: bool,
    slot: &mut Slot<A, Discard>,
    event: &Event<A>,
) -> Result<bool, AllocError>
    ensures { SlotChooses question.now would event.now slot.old slot.new result }
{
    let message = see_session(&mut slot.session, event)?;
    if !is_session(question.session, &slot.name) {
        return Ok(false);
    }
    question.choice.chooses(alloc, would, &message)
}

/// Each session sees an event: whether one of them chooses it.
pub(crate) fn see_each<A: Allocator + Copy>(
    alloc: A,
    question: &MessageQuestion<'_>,
    would: bool,
    slots: &mut Vec<Slot<A, Discard>, A>,
    event: &Event<A>,
) -> Result<bool, AllocError>
    ensures { SlotsChoose question.now would event.now slots.old.items slots.new.items result }
{
    let mut one_chooses = false;
    for place in 0..slots.len() {
        let chooses = see_one(alloc, question, would, &mut slots[place], event)?;
        one_chooses = one_chooses | chooses;
    }
    Ok(one_chooses)
}

/// The session that a command names does it.
pub(crate) fn obey_each<A: Allocator + Copy>(
    alloc: A,
    slots: &mut Vec<Slot<A, Discard>, A>,
    functions: &[Function<A>],
    living: Alive,
    command: &Command<A>,
) -> Result<(), AllocError>
    ensures { SlotsFollow functions.now living command.now slots.old.items slots.new.items result }
{
    for place in 0..slots.len() {
        slots[place].obey(alloc, functions, living, command)?;
    }
    Ok(())
}
