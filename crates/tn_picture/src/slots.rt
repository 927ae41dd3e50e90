// The sessions of the control list side by side, each seeing what a move shows.
ghost use Rattle.std.specs.Prelude.{IfOk};
ghost use Rattle.tn_picture.specs.Slots.{SlotReports, SlotsReport, SlotObeys, SlotsObey};

use crate::row::Report;
use std::alloc::{AllocError, Allocator};
use tn_flags::{Command, Event};
use tn_script::Function;
use tn_session::Room;
use tn_term::Alive;
use tn_trace::{Discard, Slot};

/// A session sees an event, and its message is appended, where it reports one.
fn report_one<A: Allocator + Copy>(
    alloc: A,
    number: u64,
    slot: &mut Slot<A, Discard>,
    event: &Event<A>,
    reports: &mut Vec<Report<A>, A>,
) -> Result<(), AllocError>
    ensures { SlotReports number event.now slot.old slot.new reports.old reports.new result }
{
    let Some(session) = &mut slot.session else {
        return Ok(());
    };
    let mut room = Room::new(alloc);
    let Some(message) = session.tell(event, &mut room)? else {
        return Ok(());
    };
    let mut text = Vec::new(alloc);
    message.append_text(&mut text)?;
    reports.push(Report {
        session: number,
        text,
    })?;
    Ok(())
}

/// Each session sees an event, and its message is appended, where it reports one.
pub(crate) fn report_each<A: Allocator + Copy>(
    alloc: A,
    slots: &mut Vec<Slot<A, Discard>, A>,
    event: &Event<A>,
    reports: &mut Vec<Report<A>, A>,
) -> Result<(), AllocError>
    ensures { SlotsReport event.now slots.old.items slots.new.items reports.old reports.new result }
{
    for place in 0..slots.len() {
        report_one(alloc, place as u64 + 1, &mut slots[place], event, reports)?;
    }
    Ok(())
}

/// A session does a command that is its own.
fn obey_one<A: Allocator + Copy>(
    alloc: A,
    slot: &mut Slot<A, Discard>,
    functions: &[Function<A>],
    living: Alive,
    command: &Command<A>,
) -> Result<(), AllocError>
    ensures { SlotObeys functions.now living command.now slot.old slot.new result }
{
    slot.obey(alloc, functions, living, command)?;
    Ok(())
}

/// The session that a command names does it.
pub(crate) fn obey_each<A: Allocator + Copy>(
    alloc: A,
    slots: &mut Vec<Slot<A, Discard>, A>,
    functions: &[Function<A>],
    living: Alive,
    command: &Command<A>,
) -> Result<(), AllocError>
    ensures { SlotsObey functions.now living command.now slots.old.items slots.new.items result }
{
    for place in 0..slots.len() {
        obey_one(alloc, &mut slots[place], functions, living, command)?;
    }
    Ok(())
}
