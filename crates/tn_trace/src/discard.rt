// Messages of which nothing is kept.
use crate::item::Item;
use crate::sink::MessageSink;
use std::alloc::{AllocError, Allocator};
use tn_session::{EventText, Message};
use tn_term::Term;

/// Nothing is kept of messages and replies: an observer makes something of them as they come.
#[derive(Drop)]
pub struct Discard;

impl<A: Allocator> MessageSink<A> for Discard {
    ghost use Rattle.std.specs.Prelude.{IfOk};
    ghost use Rattle.tn_term.specs.Views.{tree_of};
    ghost use Rattle.tn_trace.specs.Tracks.{IsOneMore};

    ghost keeps = { λ _ _. Unit {0} };

    ghost gives = { λ _ _. Unit {0} };

    fn nothing(alloc: A) -> Self {
        Discard
    }

    fn keep_reply(&mut self, alloc: A, reply: &Term<A>) -> Result<(), AllocError> {
        Ok(())
    }

    fn keep_message(
        &mut self,
        alloc: A,
        number: u32,
        message: &Message<'_, A>,
        text: &mut EventText<'_, A>,
        given: &mut Vec<Item<A>, A>,
    ) -> Result<(), AllocError> {
        Ok(())
    }
}
