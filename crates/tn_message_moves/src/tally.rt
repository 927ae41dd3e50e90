// How many messages a session has, or how many replies there are.
ghost use Rattle.std.specs.Prelude.{◌≡◌, ◌+◌, IfOk};

use std::alloc::{AllocError, Allocator};
use tn_session::{EventText, Message};
use tn_term::Term;
use tn_trace::{Item, MessageSink};

/// So many messages or replies, of which nothing else is kept.
#[derive(Drop)]
pub(crate) struct Tally {
    pub count: usize,
}

/// One more.
fn one_more(count: usize) -> Result<usize, AllocError>
    ensures { IfOk result (λ n. n ≡ count + 1) }
{
    if count < usize::MAX {
        Ok(count + 1)
    } else {
        Err(AllocError)
    }
}

impl<A: Allocator> MessageSink<A> for Tally {
    ghost use Rattle.tn_message_moves.specs.Tallies.{CountsMessages};

    ghost keeps = { CountsMessages };

    ghost gives = { λ _ _. Unit {0} };

    fn nothing(_alloc: A) -> Self {
        Tally { count: 0 }
    }

    fn keep_reply(&mut self, _alloc: A, _reply: &Term<A>) -> Result<(), AllocError> {
        self.count = one_more(self.count)?;
        Ok(())
    }

    fn keep_message(
        &mut self,
        _alloc: A,
        _number: u32,
        _message: &Message<'_, A>,
        _text: &mut EventText<'_, A>,
        _given: &mut Vec<Item<A>, A>,
    ) -> Result<(), AllocError> {
        self.count = one_more(self.count)?;
        Ok(())
    }
}
