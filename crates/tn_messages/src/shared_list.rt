// The messages of a process that several states keep.
ghost use Rattle.std.specs.Prelude.{◌≡◌, ◌↔◌, ◌++◌, ◌∷◌, [], IfOk, IsTrue};
ghost use Rattle.tn_messages.specs.MessageViews.{message_tree, trees_of_list, shared_lists};

use crate::list::{MessageList, share_messages};
use crate::shared_message::SharedMessage;
use std::alloc::{AllocError, Allocator};
use std::sync::Arc;

/// Messages, in their order, with several owners.
pub(crate) type SharedList<A> = Arc<MessageList<A>, A>;

/// One more message. Where the list has other owners, this one gets a copy of it first.
pub(crate) fn add_message<A: Allocator + Copy>(
    alloc: A,
    list: &mut SharedList<A>,
    message: SharedMessage<A>,
) -> Result<(), AllocError>
    ensures { IfOk result (λ _. trees_of_list list.new ≡ trees_of_list list.old ++ message_tree message ∷ []) }
{
    match Arc::get_mut(list) {
        Some(messages) => {
            messages.push(message)?;
            Ok(())
        }
        None => {
            let mut copy = share_messages(alloc, list)?;
            copy.push(message)?;
            *list = Arc::new(alloc, copy)?;
            Ok(())
        }
    }
}

/// Whether both have the same messages in the same order.
pub(crate) fn same_lists<A: Allocator>(
    one: &Vec<SharedList<A>, A>,
    other: &Vec<SharedList<A>, A>,
) -> bool
    ensures { IsTrue result ↔ (shared_lists one.now ≡ shared_lists other.now) }
{
    *one == *other
}
