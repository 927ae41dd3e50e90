// The text of an event and its message, made once for all messages of it.
ghost use Rattle.std.specs.Prelude.{◌≡◌, IfOk, OnOk, OnErr};
ghost use Rattle.tn_text.specs.WrittenTrees.{written_tree};
ghost use Rattle.tn_flags.specs.Views.{event_of};
ghost use Rattle.tn_session.specs.Messages.{message_of};
ghost use Rattle.tn_session.specs.EventTexts.{event_in};

use std::alloc::{AllocError, Allocator};
use tn_flags::Event;
use tn_session::{EventText, Message};
use tn_text::WrittenTerm;

/// `tn_session::EventText::new` has one answer, whatever the room is.
pub fn new<'a, A: Allocator>(
    event: &'a Event<A>,
    same_event: &'a Event<A>,
    room: Vec<u8, A>,
    other_room: Vec<u8, A>,
) -> (EventText<'a, A>, EventText<'a, A>)
    requires { event_of event.now ≡ event_of same_event.now }
    ensures { event_of (event_in result.0) ≡ event_of (event_in result.1) }
{
    (
        EventText::new(event, room),
        EventText::new(same_event, other_room),
    )
}

/// `tn_session::EventText::event` has one answer.
pub fn event<'a, A: Allocator>(
    one: &EventText<'a, A>,
    other: &EventText<'a, A>,
) -> (&'a Event<A>, &'a Event<A>)
    requires { event_of (event_in one.now) ≡ event_of (event_in other.now) }
    ensures { event_of result.0.now ≡ event_of result.1.now }
{
    (one.event(), other.event())
}

/// `tn_session::EventText::append_text` has one answer. Where memory is refused, the text is as it was.
pub fn append_text<A: Allocator, B: Allocator>(
    one: &mut EventText<'_, A>,
    other: &mut EventText<'_, A>,
    message: &Message<'_, A>,
    same_message: &Message<'_, A>,
    out: &mut Vec<u8, B>,
    same_out: &mut Vec<u8, B>,
) -> (Result<(), AllocError>, Result<(), AllocError>)
    requires messages { message_of (event_in one.old) message.now ≡ message_of (event_in other.old) same_message.now }
    requires outs { out.old.items ≡ same_out.old.items }
    ensures ok { OnOk result.0 (OnOk result.1 (out.new.items ≡ same_out.new.items)) }
    ensures err { OnErr result.0 (out.new.items ≡ out.old.items) }
    ensures event { event_in one.new ≡ event_in one.old }
{
    let first = one.append_text(message, out);
    let second = other.append_text(same_message, same_out);
    (first, second)
}

/// `tn_session::EventText::written_term` has one answer.
pub fn written_term<A: Allocator + Copy>(
    one: &mut EventText<'_, A>,
    other: &mut EventText<'_, A>,
    alloc: A,
    message: &Message<'_, A>,
    same_message: &Message<'_, A>,
) -> (
    Result<WrittenTerm<A>, AllocError>,
    Result<WrittenTerm<A>, AllocError>,
)
    requires { message_of (event_in one.old) message.now ≡ message_of (event_in other.old) same_message.now }
    ensures ok { IfOk result.0 (λ t. IfOk result.1 (λ u. written_tree t ≡ written_tree u)) }
    ensures event { event_in one.new ≡ event_in one.old }
{
    let first = one.written_term(alloc, message);
    let second = other.written_term(alloc, same_message);
    (first, second)
}
