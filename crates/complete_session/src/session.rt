// A session, as its users see it.
ghost use Rattle.std.specs.Prelude.{◌≡◌, IfOk, IsErr, IsNone, OnErr, map};
ghost use Rattle.std.specs.Option.{option_map};
ghost use Rattle.std.specs.Arc.{arc_value};
ghost use Rattle.tn_term.specs.Views.{alive_of, tree_of};
ghost use Rattle.tn_flags.specs.Views.{command_of, event_of, flags_of};
ghost use Rattle.tn_session.specs.Sessions.{value_in};
ghost use Rattle.tn_session.specs.Looks.{look_seen};
ghost use Rattle.tn_session.specs.EventSteps.{message_in};
ghost use Rattle.tn_session.specs.Views.{function_seen};
ghost use Rattle.complete_session.specs.Afterwards.{term_seen};

use std::alloc::{AllocError, Allocator};
use std::sync::Arc;
use tn_flags::{Command, Event, Flags};
use tn_session::{Look, Message, Room, Session};
use tn_term::{Alive, Mfa, Term};

/// `tn_session::Session::created` has one answer.
pub fn created<A: Allocator + Copy>(
    alloc: A,
    one: (Arc<Vec<(Mfa<A>, bool), A>, A>, Alive),
    other: (Arc<Vec<(Mfa<A>, bool), A>, A>, Alive),
) -> (Session<A>, Session<A>)
    requires functions { map function_seen (arc_value one.0).items ≡ map function_seen (arc_value other.0).items }
    requires alive { alive_of one.1 ≡ alive_of other.1 }
    ensures { value_in result.0 ≡ value_in result.1 }
{
    let first = Session::created(alloc, one.0, one.1);
    let second = Session::created(alloc, other.0, other.1);
    (first, second)
}

/// `tn_session::Session::share` has one answer.
pub fn share<A: Allocator + Copy>(
    one: &Session<A>,
    other: &Session<A>,
) -> (
    Result<Session<A>, AllocError>,
    Result<Session<A>, AllocError>,
)
    requires { value_in one.now ≡ value_in other.now }
    ensures { IfOk result.0 (λ s. IfOk result.1 (λ t. value_in s ≡ value_in t)) }
{
    (one.share(), other.share())
}

/// `tn_session::Session::look` has one answer: what is seen, or nothing after refused memory.
pub fn look<'a, A: Allocator + Copy>(
    one: &'a Session<A>,
    other: &'a Session<A>,
) -> (Option<Look<'a, A>>, Option<Look<'a, A>>)
    requires { value_in one.now ≡ value_in other.now }
    ensures { option_map look_seen result.0 ≡ option_map look_seen result.1 }
{
    (one.look(), other.look())
}

/// `tn_session::Session::set_new_process_flags` leaves one session.
pub fn set_new_process_flags<A: Allocator + Copy>(
    one: &mut Session<A>,
    other: &mut Session<A>,
    flags: Flags,
    same_flags: Flags,
)
    requires sessions { value_in one.old ≡ value_in other.old }
    requires flags { flags_of flags ≡ flags_of same_flags }
    ensures { value_in one.new ≡ value_in other.new }
{
    one.set_new_process_flags(flags);
    other.set_new_process_flags(same_flags);
}

/// `tn_session::Session::command` has one answer. It includes the session afterwards.
pub fn command<A: Allocator + Copy>(
    one: &mut Session<A>,
    other: &mut Session<A>,
    command: &Command<A>,
    same_command: &Command<A>,
) -> (Result<Term<A>, AllocError>, Result<Term<A>, AllocError>)
    requires sessions { value_in one.old ≡ value_in other.old }
    requires commands { command_of command.now ≡ command_of same_command.now }
    ensures reply { IfOk result.0 (λ t. IfOk result.1 (λ u.
        (value_in one.new ≡ value_in other.new) × (tree_of t ≡ tree_of u))) }
    ensures refused { OnErr result.0 (IsNone (value_in one.new)) }
    ensures spent { IsNone (value_in one.old) → IsErr result.0 }
{
    let first = one.command(command);
    let second = other.command(same_command);
    (first, second)
}

/// `tn_session::Session::event` has one answer. It includes the session afterwards.
pub fn event<A: Allocator + Copy>(
    one: &mut Session<A>,
    other: &mut Session<A>,
    event: &Event<A>,
    same_event: &Event<A>,
) -> (
    Result<Option<Term<A>>, AllocError>,
    Result<Option<Term<A>>, AllocError>,
)
    requires sessions { value_in one.old ≡ value_in other.old }
    requires events { event_of event.now ≡ event_of same_event.now }
    ensures ok { IfOk result.0 (λ m. IfOk result.1 (λ n.
        (value_in one.new ≡ value_in other.new) × (term_seen m ≡ term_seen n))) }
    ensures refused { OnErr result.0 (IsNone (value_in one.new)) }
    ensures spent { IsNone (value_in one.old) → IsErr result.0 }
{
    let first = one.event(event);
    let second = other.event(same_event);
    (first, second)
}

/// `tn_session::Session::tell` has one answer, whatever the room is. It includes the session afterwards.
pub fn tell<'a, A: Allocator + Copy>(
    one: &mut Session<A>,
    other: &mut Session<A>,
    event: &'a Event<A>,
    same_event: &'a Event<A>,
    room: &'a mut Room<A>,
    other_room: &'a mut Room<A>,
) -> (
    Result<Option<Message<'a, A>>, AllocError>,
    Result<Option<Message<'a, A>>, AllocError>,
)
    requires sessions { value_in one.old ≡ value_in other.old }
    requires events { event_of event.now ≡ event_of same_event.now }
    ensures ok { IfOk result.0 (λ m. IfOk result.1 (λ n.
        (value_in one.new ≡ value_in other.new) × (message_in m ≡ message_in n))) }
    ensures refused { OnErr result.0 (IsNone (value_in one.new)) }
    ensures spent { IsNone (value_in one.old) → IsErr result.0 }
{
    let first = one.tell(event, room);
    let second = other.tell(same_event, other_room);
    (first, second)
}
