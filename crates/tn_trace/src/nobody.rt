// That nothing looks on.
use crate::journal::JournalEntry;
use crate::observer::Observer;
use std::alloc::{AllocError, Allocator};
use tn_flags::{Command, Event};
use tn_node::Node;
use tn_program::Program;

/// Nothing looks on: a run has its journal alone.
#[derive(Clone, Copy, Drop)]
pub struct Nobody;

impl<A: Allocator> Observer<A> for Nobody {
    type Output = ();

    type Sight = ();

    ghost looks = { λ _ _ _ _. Unit {0} };

    ghost sees = { λ _ _ _. Unit {0} };

    ghost adds = { λ _ _ _ _ _ _ _. Unit {0} };

    ghost reaches = { λ _ _. Unit {0} };

    fn look(&self, _node: &Node<A>, _pick: u32) {}

    fn obey(
        &mut self,
        _program: &Program<A>,
        _entry: JournalEntry,
        _command: &Command<A>,
        _out: &mut (),
    ) -> Result<(), AllocError> {
        Ok(())
    }

    fn see(
        &mut self,
        _program: &Program<A>,
        _entry: JournalEntry,
        _sight: (),
        _events: &Vec<Event<A>, A>,
        _out: &mut (),
    ) -> Result<(), AllocError> {
        Ok(())
    }

    ghost stays = { λ out. tt };

    ghost reaches_on = { λ first now next a b. tt };
}
