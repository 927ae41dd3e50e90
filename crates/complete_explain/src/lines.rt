// What a session makes of an event, and the reply to a command, in lines.
ghost use Rattle.std.specs.Prelude.{◌≡◌, OnOk};
ghost use Rattle.tn_term.specs.Views.{tree_of};
ghost use Rattle.tn_session.specs.Sessions.{value_in};
ghost use Rattle.tn_command_reason.specs.CommandReasons.{command_reasons_seen};

use std::alloc::{AllocError, Allocator};
use tn_command_reason::CommandReason;
use tn_difference::Difference;
use tn_explain::{put_command_difference, put_command_line, put_event_lines};
use tn_flags::Event;
use tn_node::Outlook;
use tn_session::Session;
use tn_term::{Atom, Term};

/// An event, what was known of its step before it, and the name of the session that sees it.
#[derive(Clone, Copy)]
pub struct SessionView<'a, A: Allocator> {
    pub name: &'a Atom<A>,
    pub outlook: Outlook,
    pub event: &'a Event<A>,
}

/// `tn_explain::put_event_lines` leaves one text, and one state of the session. After a refusal nothing of
/// them is said, but that the text that was there is still a front of it.
pub fn event<A: Allocator + Copy>(
    alloc: A,
    one: &mut Session<A>,
    other: &mut Session<A>,
    seen: SessionView<'_, A>,
    first: &mut Vec<u8, A>,
    second: &mut Vec<u8, A>,
) -> (Result<(), AllocError>, Result<(), AllocError>)
    requires sessions { value_in one.old ≡ value_in other.old }
    requires texts { first.old.items ≡ second.old.items }
    ensures text { OnOk result.0 (OnOk result.1 (first.new.items ≡ second.new.items)) }
    ensures after { OnOk result.0 (OnOk result.1 (value_in one.new ≡ value_in other.new)) }
{
    (
        put_event_lines(alloc, seen.name, one, seen.outlook, seen.event, first),
        put_event_lines(alloc, seen.name, other, seen.outlook, seen.event, second),
    )
}

/// A reply to a command, and why it is this one.
#[derive(Drop)]
pub struct SessionReply<'a, A: Allocator> {
    pub reply: &'a Term<A>,
    pub why: Option<CommandReason<'a, A>>,
}

/// `tn_explain::put_command_line` leaves one text. After a refusal nothing of it is said, but that the text
/// that was there is still a front of it.
pub fn command<A: Allocator, B: Allocator>(
    name: &Atom<A>,
    one: SessionReply<'_, A>,
    other: SessionReply<'_, A>,
    first: &mut Vec<u8, B>,
    second: &mut Vec<u8, B>,
) -> (Result<(), AllocError>, Result<(), AllocError>)
    requires replies { tree_of one.reply.now ≡ tree_of other.reply.now }
    requires reasons { command_reasons_seen one.why ≡ command_reasons_seen other.why }
    requires texts { first.old.items ≡ second.old.items }
    ensures { OnOk result.0 (OnOk result.1 (first.new.items ≡ second.new.items)) }
{
    (
        put_command_line(name, one.reply, one.why, first),
        put_command_line(name, other.reply, other.why, second),
    )
}

/// `tn_explain::put_command_difference` leaves one text. After a refusal nothing of it is said, but that the text that
/// was there is still a front of it.
pub fn command_difference<A: Allocator, B: Allocator>(
    name: &Atom<A>,
    difference: Option<Difference>,
    first: &mut Vec<u8, B>,
    second: &mut Vec<u8, B>,
) -> (Result<(), AllocError>, Result<(), AllocError>)
    requires { first.old.items ≡ second.old.items }
    ensures { OnOk result.0 (OnOk result.1 (first.new.items ≡ second.new.items)) }
{
    (
        put_command_difference(name, difference, first),
        put_command_difference(name, difference, second),
    )
}
