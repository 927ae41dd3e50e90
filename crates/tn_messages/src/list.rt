// The messages of a session in their order.
ghost use Rattle.std.specs.Prelude.{◌≡◌, ◌↔◌, IfOk, IsTrue};
ghost use Rattle.tn_messages.specs.MessageViews.{trees_seen};

use crate::shared_message::SharedMessage;
use std::alloc::{AllocError, Allocator};

/// Messages, in their order.
pub type MessageList<A> = Vec<SharedMessage<A>, A>;

/// The same messages, each with one owner more.
///
/// # Errors
///
/// AllocError where memory was refused, or a count of owners is full.
pub fn share_messages<A: Allocator + Copy>(
    alloc: A,
    messages: &MessageList<A>,
) -> Result<MessageList<A>, AllocError>
    ensures { IfOk result (λ v. trees_seen v ≡ trees_seen messages.now) }
{
    let mut copies = Vec::with_capacity(alloc, messages.len().saturating_add(1))?;
    for message in messages {
        copies.push(message.share()?)?;
    }
    Ok(copies)
}

/// Whether both have the same messages in the same order.
pub fn same_messages<A: Allocator>(one: &MessageList<A>, other: &MessageList<A>) -> bool
    ensures { IsTrue result ↔ (trees_seen one.now ≡ trees_seen other.now) }
{
    *one == *other
}
