// What a node looks at as it reports an event.
ghost use Rattle.std.specs.Prelude.{◌≡◌, false, if◌then◌else◌};
ghost use Rattle.def_spec.specs.Flags.{no_flags};
ghost use Rattle.def_running_node.specs.NodeSessions.{is_decided, parent_of, new_flags_for};
ghost use Rattle.def_explain.specs.Differences.{hands_on};
ghost use Rattle.def_session.specs.Messages.{process_of};
ghost use Rattle.tn_flags.specs.Views.{event_of, flags_of};
ghost use Rattle.tn_session.specs.Looks.{look_seen, look_setting};
ghost use Rattle.tn_running_node.specs.Messages.{decides_in, sight_view, sight_in, silent_by};

use std::alloc::Allocator;
use tn_flags::{Event, Flags};
use tn_index::Setting;
use tn_session::Look;
use tn_spec::Spec;

/// What a node looks at as it reports an event of a process: whether a match specification decides the message of a
/// send or a receive, and whether the process has `call` and `procs` before the event, and `silent` after it.
#[derive(Clone, Copy, Debug, PartialEq, Eq, Drop)]
pub struct Sight {
    pub is_decided: bool,
    pub has_call: bool,
    pub has_procs: bool,
    pub is_silent: bool,
}

/// Whether a match specification decides.
fn is_decided<A: Allocator>(setting: Setting<&Spec<A>>) -> bool
    ensures { result ≡ is_decided (look_setting setting.entry) }
{
    match setting {
        Setting::Disabled | Setting::Always => false,
        Setting::Specification(_) => true,
    }
}

/// Whether a match specification decides the message of a send or a receive.
fn decides<A: Allocator + Copy>(look: &Look<'_, A>, event: &Event<A>) -> bool
    ensures { result ≡ decides_in (look_seen look.now) (event_of event.now) }
{
    match event {
        Event::Sent { .. } => is_decided(look.send_setting()),
        Event::Received { .. } => is_decided(look.receive_setting()),
        _ => false,
    }
}

/// The process that an event is about.
fn process_of<A: Allocator>(event: &Event<A>) -> u32
    ensures { result ≡ process_of (event_of event.now) }
{
    match event {
        Event::Sent { pid, .. }
        | Event::Received { pid, .. }
        | Event::Called { pid, .. }
        | Event::Returned { pid, .. }
        | Event::Raised { pid, .. }
        | Event::Spawn { pid, .. }
        | Event::Spawned { pid, .. }
        | Event::Exited { pid, .. }
        | Event::Linked { pid, .. }
        | Event::Unlinked { pid, .. }
        | Event::GettingLinked { pid, .. }
        | Event::GettingUnlinked { pid, .. } => *pid,
    }
}

/// What is looked at before an event, where the process isn't silent after it.
pub fn sight_before<A: Allocator + Copy>(look: &Look<'_, A>, event: &Event<A>) -> Sight
    ensures { sight_view result ≡ sight_in (look_seen look.now) (event_of event.now) false }
{
    let flags = look.flags_at(process_of(event));
    Sight {
        is_decided: decides(look, event),
        has_call: flags.call,
        has_procs: flags.procs,
        is_silent: false,
    }
}

/// What is looked at before an event and after it.
pub fn sight_after<A: Allocator + Copy>(
    before: Sight,
    look: &Look<'_, A>,
    event: &Event<A>,
) -> Sight
    ensures { sight_view result ≡ silent_by (sight_view before) (look_seen look.now) (event_of event.now) }
{
    Sight {
        is_silent: look.flags_at(process_of(event)).silent,
        ..before
    }
}

/// Whether a parent with these flags hands them on to its child.
fn hands_on(flags: Flags) -> bool
    ensures { result ≡ hands_on (flags_of flags) }
{
    flags.set_on_spawn || flags.set_on_first_spawn
}

/// The flags for new processes, or none.
fn new_flags_unless<A: Allocator + Copy>(look: &Look<'_, A>, hands_on: bool) -> Flags
    ensures { flags_of result ≡ (if hands_on then no_flags else (look_seen look.now).new_process_flags) }
{
    if hands_on {
        Flags::none()
    } else {
        look.new_process_flags()
    }
}

/// The parent, where the event is of its child's start.
fn parent_of<A: Allocator>(event: &Event<A>) -> Option<u32>
    ensures { result ≡ parent_of (event_of event.now) }
{
    match event {
        Event::Spawned { parent, .. } => Some(*parent),
        _ => None,
    }
}

/// The flags that the child has but for those that its parent hands on.
pub fn new_flags_for<A: Allocator + Copy>(look: &Look<'_, A>, event: &Event<A>) -> Flags
    ensures { flags_of result ≡ new_flags_for (look_seen look.now) (event_of event.now) }
{
    match parent_of(event) {
        Some(parent) => new_flags_unless(look, hands_on(look.flags_at(parent))),
        None => look.new_process_flags(),
    }
}
