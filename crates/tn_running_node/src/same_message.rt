// Whether a session of a running node reports the message that one of the model reports.
ghost use Rattle.std.specs.Prelude.{◌≡◌, true};
ghost use Rattle.tn_session.specs.Messages.{last_seen};
ghost use Rattle.tn_running_node.specs.SameMessages.{IsWhere, IsSame};

use std::alloc::Allocator;
use tn_guard::Value;
use tn_session::Message;

/// Whether both are the same value, or none. Where it is false that may be so too.
fn is_same_value<A: Allocator>(one: Option<Value<'_, A>>, other: Option<Value<'_, A>>) -> bool
    ensures { result ≡ true → last_seen one.entry ≡ last_seen other.entry }
{
    match (one, other) {
        (Some(one), Some(other)) => one.same(other),
        (None, None) => true,
        (Some(_), None) | (None, Some(_)) => false,
    }
}

/// Whether two messages of one event are the same, or there is neither. Where it is false that may be so too.
pub fn is_same<A: Allocator>(one: &Option<Message<'_, A>>, other: &Option<Message<'_, A>>) -> bool
    ensures { result ≡ true → IsSame one.now other.now }
{
    match (one, other) {
        (Some(one), Some(other)) => {
            let has_same_value = is_same_value(one.last, other.last);
            (one.short == other.short) & has_same_value
        }
        (None, None) => true,
        (Some(_), None) | (None, Some(_)) => false,
    }
}

/// Whether there is a message exactly where this holds, and it has no last value.
pub fn is_where<A: Allocator>(holds: bool, message: &Option<Message<'_, A>>) -> bool
    ensures { result ≡ true → IsWhere holds message.now }
{
    match message {
        Some(message) => holds & message.last.is_none(),
        None => !holds,
    }
}
