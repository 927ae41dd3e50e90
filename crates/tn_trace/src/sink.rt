// What is kept of a session's messages, and of the replies.

use crate::item::Item;
use std::alloc::{AllocError, Allocator};
use tn_session::{EventText, Message};
use tn_term::Term;

/// What a run keeps of messages and replies, and what it hands out of a move's messages.
pub trait MessageSink<A: Allocator> {
    ghost use Rattle.std.specs.Prelude.{◌≡◌, List, [], IfOk};
    ghost use Rattle.def_term.specs.Tree.{Tree};
    ghost use Rattle.def_run.specs.Listing.{Item as DefinedItem};
    ghost use Rattle.tn_term.specs.Views.{tree_of};
    ghost use Rattle.tn_session.specs.Messages.{message_of};
    ghost use Rattle.tn_session.specs.EventTexts.{event_in};
    ghost use Rattle.tn_trace.specs.Tracks.{IsOneMore, IsHandedOut};
    ghost use Rattle.std.specs.declared.vec.Vec.{Vec};
    ghost use Rattle.tn_trace.specs.declared.item.Item.{Item};

    /// It is what is kept of these.
    ghost keeps: { Self → List Tree → Type 0 };

    /// It is what is handed out of these.
    ghost gives: { Vec (Item A) A → List DefinedItem → Type 0 };

    /// What is kept of no message.
    fn nothing(alloc: A) -> Self
        ensures { keeps result [] };

    /// One more reply.
    fn keep_reply(&mut self, alloc: A, reply: &Term<A>) -> Result<(), AllocError>
        ensures { IfOk result (λ _. IsOneMore keeps (tree_of reply.now) self.old self.new) };

    /// One more message, of the session with this number: that of the text's event which is as short as this
    /// message and has its last term.
    fn keep_message(
        &mut self,
        alloc: A,
        number: u32,
        message: &Message<'_, A>,
        text: &mut EventText<'_, A>,
        given: &mut Vec<Item<A>, A>,
    ) -> Result<(), AllocError>
        ensures kept { let m = message_of (event_in text.old) message.now in
            IfOk result (λ _. IsOneMore keeps m self.old self.new) }
        ensures given { let m = message_of (event_in text.old) message.now in
            IsHandedOut keeps gives number m self.old given.old given.new result }
        ensures event { event_in text.new ≡ event_in text.old };
}

/// What a run keeps of messages and replies, of which there can be one more.
pub trait SharedSink<A: Allocator>: MessageSink<A> {
    ghost use Rattle.std.specs.Prelude.{IfOk};
    ghost use Rattle.tn_trace.specs.Shares.{KeepsAsMuch};

    /// The same once more, which may have other owners.
    ///
    /// # Errors
    ///
    /// AllocError where memory was refused, or a count of owners is full.
    fn share(&self, alloc: A) -> Result<Self, AllocError>
        ensures { IfOk result (KeepsAsMuch Self.keeps self.now) };
}
