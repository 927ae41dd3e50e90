// What a run keeps of messages.
ghost use Rattle.std.specs.Prelude.{◌≡◌, List, IfOk, OnOk};
ghost use Rattle.def_term.specs.Tree.{Tree};
ghost use Rattle.def_run.specs.Listing.{Item as DefinedItem};
ghost use Rattle.tn_term.specs.Views.{tree_of};
ghost use Rattle.complete_runs.specs.Alike.{AreKept};

use std::alloc::{AllocError, Allocator};
use tn_flags::Event;
use tn_session::{EventText, Message};
use tn_term::Term;
use tn_trace::{Item, MessageSink, SharedSink};

/// `tn_trace::MessageSink::nothing` has one answer.
pub fn nothing<A: Allocator + Copy, K: MessageSink<A> + Drop>(alloc: A) -> (K, K)
    ensures { AreKept K.keeps result.0 result.1 }
{
    (K::nothing(alloc), K::nothing(alloc))
}

/// `tn_trace::MessageSink::keep_reply` has one answer.
pub fn keep_reply<A: Allocator + Copy, K: MessageSink<A> + Drop>(
    one: &mut K,
    other: &mut K,
    alloc: A,
    reply: &Term<A>,
    same_reply: &Term<A>,
) -> (Result<(), AllocError>, Result<(), AllocError>)
    ghost at: { List Tree }
    requires first { K.keeps one.old at }
    requires second { K.keeps other.old at }
    requires replies { tree_of reply.now ≡ tree_of same_reply.now }
    ensures { OnOk result.0 (OnOk result.1 (AreKept K.keeps one.new other.new)) }
{
    let first = one.keep_reply(alloc, reply);
    let second = other.keep_reply(alloc, same_reply);
    (first, second)
}

/// `tn_trace::MessageSink::keep_message` has one answer. The message comes with the number of its session and the
/// event of the text.
pub fn keep_message<A: Allocator + Copy, K: MessageSink<A> + Drop>(
    one: &mut K,
    other: &mut K,
    alloc: A,
    message: (u32, &Message<'_, A>, &Event<A>),
    given: &mut Vec<Item<A>, A>,
    same_given: &mut Vec<Item<A>, A>,
) -> (Result<(), AllocError>, Result<(), AllocError>)
    ghost at: { List Tree × List DefinedItem }
    requires first { K.keeps one.old at.0 }
    requires second { K.keeps other.old at.0 }
    requires given { K.gives given.old at.1 }
    requires same_given { K.gives same_given.old at.1 }
    ensures kept { OnOk result.0 (OnOk result.1 (AreKept K.keeps one.new other.new)) }
    ensures given { OnOk result.0 (OnOk result.1 (AreKept K.gives given.new same_given.new)) }
{
    let mut text = EventText::new(message.2, Vec::new(alloc));
    let first = one.keep_message(alloc, message.0, message.1, &mut text, given);
    let second = other.keep_message(alloc, message.0, message.1, &mut text, same_given);
    (first, second)
}

/// `tn_trace::SharedSink::share` has one answer.
pub fn share<A: Allocator + Copy, K: SharedSink<A> + Drop>(
    alloc: A,
    one: &K,
    other: &K,
) -> (Result<K, AllocError>, Result<K, AllocError>)
    ghost at: { List Tree }
    requires first { K.keeps one.now at }
    requires second { K.keeps other.now at }
    ensures { IfOk result.0 (λ k. IfOk result.1 (AreKept K.keeps k)) }
{
    let first = one.share(alloc);
    let second = other.share(alloc);
    (first, second)
}
