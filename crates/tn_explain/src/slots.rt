// The sessions of the control list side by side, each seeing what a move shows.
ghost use Rattle.std.specs.Prelude.{IfOk};
ghost use Rattle.tn_text.specs.Writes.{Grows};
ghost use Rattle.tn_command_reason.specs.CommandReasons.{command_reasons_seen};
ghost use Rattle.tn_explain.specs.CommandDifferences.{differences_seen};
ghost use Rattle.tn_explain.specs.NamedSessions.{SlotSeesEvent, SlotsSeeEvent, SlotHasReason, SlotSeesCommand};
ghost use Rattle.tn_explain.specs.NamedSessions.{SlotsSeeCommand, SlotHasDifference};

use crate::command_differences::command_difference;
use crate::event::put_event_lines;
use crate::line::{put_command_difference, put_command_line};
use crate::step::Step;
use std::alloc::{AllocError, Allocator};
use tn_command_reason::{CommandReason, command_reason};
use tn_difference::Difference;
use tn_flags::{Command, Event};
use tn_script::Function;
use tn_session::Room;
use tn_term::Alive;
use tn_trace::{Discard, Slot};

/// A command with what its session needs to know: the functions of the program, and who lives.
#[derive(Drop)]
pub(crate) struct Order<'a, A: Allocator> {
    pub functions: &'a [Function<A>],
    pub living: Alive,
    pub command: &'a Command<A>,
}

/// A session sees an event, and what it makes of it is appended, where it is asked for.
fn tell_one<A: Allocator + Copy>(
    alloc: A,
    step: &Step<'_>,
    slot: &mut Slot<A, Discard>,
    event: &Event<A>,
    out: &mut Vec<u8, A>,
) -> Result<(), AllocError>
    ensures ok { SlotSeesEvent step.now event.now slot.old slot.new out.old.items out.new.items result }
    ensures grows { Grows out.old.items out.new.items }
{
    let is_asked = step.is_asked_of(&slot.name);
    let Some(session) = &mut slot.session else {
        return Ok(());
    };
    if is_asked {
        put_event_lines(alloc, &slot.name, session, step.outlook, event, out)
    } else {
        let mut room = Room::new(alloc);
        session.tell(event, &mut room)?;
        Ok(())
    }
}

/// Each session sees an event, and what it makes of it is appended, as far as it is asked for.
pub(crate) fn tell_each<A: Allocator + Copy>(
    alloc: A,
    step: &Step<'_>,
    slots: &mut Vec<Slot<A, Discard>, A>,
    event: &Event<A>,
    out: &mut Vec<u8, A>,
) -> Result<(), AllocError>
    ensures ok { SlotsSeeEvent step.now event.now slots.old.items slots.new.items out.old.items out.new.items result }
    ensures grows { Grows out.old.items out.new.items }
{
    for place in 0..slots.len() {
        tell_one(alloc, step, &mut slots[place], event, out)?;
    }
    Ok(())
}

/// Why the session refuses a command that is its own, matches no function or has a trap by it. Of another's command
/// nothing is said.
fn reason_of_one<'a, A: Allocator + Copy>(
    alloc: A,
    slot: &Slot<A, Discard>,
    order: &Order<'a, A>,
) -> Result<Option<CommandReason<'a, A>>, AllocError>
    ensures { IfOk result (λ r. SlotHasReason order.now slot.now (command_reasons_seen r)) }
{
    if slot.name.text() == order.command.session().text() {
        Ok(command_reason(alloc, &slot.session, order.functions, order.command)?)
    } else {
        Ok(None)
    }
}

/// What a running node does otherwise by a command of the session. Of another's command nothing is said.
fn difference_of_one<A: Allocator + Copy>(
    alloc: A,
    slot: &Slot<A, Discard>,
    order: &Order<'_, A>,
) -> Result<Option<Difference>, AllocError>
    ensures { IfOk result (λ r. SlotHasDifference order.now slot.now (differences_seen r)) }
{
    if slot.name.text() == order.command.session().text() {
        Ok(command_difference(alloc, &slot.session, order.functions, order.command)?)
    } else {
        Ok(None)
    }
}

/// A session does a command that is its own, and its reply, why it is this one and what a running node does otherwise
/// are appended, where it is asked for.
fn obey_one<A: Allocator + Copy>(
    alloc: A,
    step: &Step<'_>,
    slot: &mut Slot<A, Discard>,
    order: &Order<'_, A>,
    out: &mut Vec<u8, A>,
) -> Result<(), AllocError>
    ensures ok { SlotSeesCommand step.now order.now slot.old slot.new out.old.items out.new.items result }
    ensures grows { Grows out.old.items out.new.items }
{
    if !step.is_asked_of(&slot.name) {
        slot.obey(alloc, order.functions, order.living, order.command)?;
        return Ok(());
    }
    let why = reason_of_one(alloc, slot, order)?;
    let difference = difference_of_one(alloc, slot, order)?;
    let reply = slot.obey(alloc, order.functions, order.living, order.command)?;
    match reply {
        Some(reply) => {
            put_command_line(&slot.name, &reply, why, out)?;
            put_command_difference(&slot.name, difference, out)
        }
        None => Ok(()),
    }
}

/// The session that a command names does it, and its reply is appended, where it is asked for.
pub(crate) fn obey_each<A: Allocator + Copy>(
    alloc: A,
    step: &Step<'_>,
    slots: &mut Vec<Slot<A, Discard>, A>,
    order: &Order<'_, A>,
    out: &mut Vec<u8, A>,
) -> Result<(), AllocError>
    ensures ok { SlotsSeeCommand step.now order.now slots.old.items slots.new.items out.old.items out.new.items result }
    ensures grows { Grows out.old.items out.new.items }
{
    for place in 0..slots.len() {
        obey_one(alloc, step, &mut slots[place], order, out)?;
    }
    Ok(())
}
