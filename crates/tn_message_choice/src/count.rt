// How many messages a session sends.
use std::alloc::{AllocError, Allocator};
use tn_session::{EventText, Message};
use tn_term::Term;
use tn_trace::{Item, MessageSink};

/// Messages and replies of which no more is kept than how many there are, up to the largest number.
#[derive(Drop)]
pub(crate) struct Count {
    pub sent: u64,
}

impl Count {
    ghost use Rattle.std.specs.Prelude.{◌+◌, ℕ};
    ghost use Rattle.tn_message_choice.specs.Counts.{IsCountUpTo};

    /// One more.
    fn add_one(&mut self)
        ensures { (n : ℕ) → IsCountUpTo n self.old.sent → IsCountUpTo (n + 1) self.new.sent }
    {
        if self.sent < u64::MAX {
            self.sent += 1;
        }
    }
}

impl<A: Allocator> MessageSink<A> for Count {
    ghost use Rattle.std.specs.Prelude.{IfOk};
    ghost use Rattle.tn_term.specs.Views.{tree_of};
    ghost use Rattle.tn_trace.specs.Tracks.{IsOneMore};
    ghost use Rattle.tn_message_choice.specs.Counts.{AreSoMany};

    ghost keeps = { AreSoMany };

    ghost gives = { λ _ _. Unit {0} };

    fn nothing(_alloc: A) -> Self {
        Count { sent: 0 }
    }

    fn keep_reply(&mut self, _alloc: A, _reply: &Term<A>) -> Result<(), AllocError> {
        self.add_one();
        Ok(())
    }

    fn keep_message(
        &mut self,
        _alloc: A,
        _number: u32,
        _message: &Message<'_, A>,
        _text: &mut EventText<'_, A>,
        _given: &mut Vec<Item<A>, A>,
    ) -> Result<(), AllocError> {
        self.add_one();
        Ok(())
    }
}
