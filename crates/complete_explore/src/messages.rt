// Messages that many states keep.
ghost use Rattle.std.specs.Prelude.{◌≡◌, [], ◌∷◌, ◌++◌, List, IfOk, OnOk};
ghost use Rattle.def_term.specs.Tree.{Tree};
ghost use Rattle.tn_term.specs.Views.{tree_of};
ghost use Rattle.tn_text.specs.WrittenTrees.{written_tree};
ghost use Rattle.tn_messages.specs.MessageViews.{message_tree, trees_seen, lists_seen, AreByProcess};
ghost use Rattle.complete_explore.specs.Explorations.{AreBothByProcess};

use std::alloc::{AllocError, Allocator};
use tn_messages::{MessageList, MessagesByProcess, SharedMessage};
use tn_term::Term;
use tn_text::WrittenTerm;

/// The messages of each process, or refused memory.
type ListsResult<A> = Result<Vec<MessageList<A>, A>, AllocError>;

/// `tn_messages::SharedMessage::new` has one answer.
pub fn new<A: Allocator>(
    one: WrittenTerm<A>,
    other: WrittenTerm<A>,
) -> (SharedMessage<A>, SharedMessage<A>)
    requires { written_tree one ≡ written_tree other }
    ensures { message_tree result.0 ≡ message_tree result.1 }
{
    let first = SharedMessage::new(one);
    let second = SharedMessage::new(other);
    (first, second)
}

/// `tn_messages::SharedMessage::share` has one answer.
pub fn share<A: Allocator>(
    one: &SharedMessage<A>,
    other: &SharedMessage<A>,
) -> (
    Result<SharedMessage<A>, AllocError>,
    Result<SharedMessage<A>, AllocError>,
)
    requires { message_tree one.now ≡ message_tree other.now }
    ensures { IfOk result.0 (λ m. IfOk result.1 (λ n. message_tree m ≡ message_tree n)) }
{
    (one.share(), other.share())
}

/// `tn_messages::SharedMessage::text` has one answer.
pub fn text<'a, A: Allocator>(
    one: &'a SharedMessage<A>,
    other: &'a SharedMessage<A>,
) -> (&'a [u8], &'a [u8])
    requires { message_tree one.now ≡ message_tree other.now }
    ensures { result.0.now ≡ result.1.now }
{
    (one.text(), other.text())
}

/// `tn_messages::SharedMessage::term` has one answer.
pub fn term<'a, A: Allocator>(
    one: &'a SharedMessage<A>,
    other: &'a SharedMessage<A>,
) -> (&'a Term<A>, &'a Term<A>)
    requires { message_tree one.now ≡ message_tree other.now }
    ensures { tree_of result.0.now ≡ tree_of result.1.now }
{
    (one.term(), other.term())
}

/// `tn_messages::SharedMessage::pid` has one answer.
pub fn pid<A: Allocator>(
    one: &SharedMessage<A>,
    other: &SharedMessage<A>,
) -> (Option<u32>, Option<u32>)
    requires { message_tree one.now ≡ message_tree other.now }
    ensures { result.0 ≡ result.1 }
{
    (one.pid(), other.pid())
}

/// `tn_messages::share_messages` has one answer.
pub fn share_messages<A: Allocator + Copy>(
    alloc: A,
    one: &MessageList<A>,
    other: &MessageList<A>,
) -> (
    Result<MessageList<A>, AllocError>,
    Result<MessageList<A>, AllocError>,
)
    requires { trees_seen one.now ≡ trees_seen other.now }
    ensures { IfOk result.0 (λ v. IfOk result.1 (λ w. trees_seen v ≡ trees_seen w)) }
{
    let first = tn_messages::share_messages(alloc, one);
    let second = tn_messages::share_messages(alloc, other);
    (first, second)
}

/// `tn_messages::same_messages` has one answer.
pub fn same_messages<A: Allocator>(
    one: &MessageList<A>,
    other: &MessageList<A>,
    messages: &MessageList<A>,
) -> (bool, bool)
    requires { trees_seen one.now ≡ trees_seen other.now }
    ensures { result.0 ≡ result.1 }
{
    let first = tn_messages::same_messages(one, messages);
    let second = tn_messages::same_messages(other, messages);
    (first, second)
}

/// `tn_messages::MessagesByProcess::none` has one answer.
pub fn none<A: Allocator + Copy>(alloc: A) -> (MessagesByProcess<A>, MessagesByProcess<A>)
    ensures { AreBothByProcess [] result.0 result.1 }
{
    (
        MessagesByProcess::none(alloc),
        MessagesByProcess::none(alloc),
    )
}

/// `tn_messages::MessagesByProcess::add` has one answer: what is kept afterwards.
pub fn add<A: Allocator + Copy>(
    alloc: A,
    one: &mut MessagesByProcess<A>,
    other: &mut MessagesByProcess<A>,
    message: SharedMessage<A>,
    same_message: SharedMessage<A>,
) -> (Result<(), AllocError>, Result<(), AllocError>)
    ghost at: { List Tree }
    requires first { AreByProcess one.old at }
    requires second { AreByProcess other.old at }
    requires messages { message_tree message ≡ message_tree same_message }
    ensures { OnOk result.0 (OnOk result.1 (AreBothByProcess (at ++ message_tree message ∷ []) one.new other.new)) }
{
    let first = one.add(alloc, message);
    let second = other.add(alloc, same_message);
    (first, second)
}

/// `tn_messages::MessagesByProcess::share` has one answer.
pub fn share_by_process<A: Allocator + Copy>(
    alloc: A,
    one: &MessagesByProcess<A>,
    other: &MessagesByProcess<A>,
) -> (
    Result<MessagesByProcess<A>, AllocError>,
    Result<MessagesByProcess<A>, AllocError>,
)
    ghost at: { List Tree }
    requires first { AreByProcess one.now at }
    requires second { AreByProcess other.now at }
    ensures { IfOk result.0 (λ k. IfOk result.1 (AreBothByProcess at k)) }
{
    let first = one.share(alloc);
    let second = other.share(alloc);
    (first, second)
}

/// `tn_messages::MessagesByProcess::into_lists` has one answer.
pub fn into_lists<A: Allocator + Copy>(
    alloc: A,
    one: MessagesByProcess<A>,
    other: MessagesByProcess<A>,
) -> (ListsResult<A>, ListsResult<A>)
    ghost at: { List Tree }
    requires first { AreByProcess one at }
    requires second { AreByProcess other at }
    ensures { IfOk result.0 (λ v. IfOk result.1 (λ w. lists_seen v ≡ lists_seen w)) }
{
    let first = one.into_lists(alloc);
    let second = other.into_lists(alloc);
    (first, second)
}
