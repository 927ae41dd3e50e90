// What a specification is evaluated in.
ghost use Rattle.std.specs.Prelude.{◌≡◌};
ghost use Rattle.tn_flags.specs.Views.{table_of};
ghost use Rattle.tn_action.specs.Steps.{context_at};

use crate::effect::Effect;
use std::alloc::Allocator;
use tn_flags::FlagTable;
use tn_guard::ListView;
use tn_term::{Alive, Mfa};

/// What a specification is evaluated in: what values may borrow from, and the state of the session, from which none
/// borrows.
#[derive_where(Clone, Copy)]
pub struct Context<'a, 'f, A: Allocator> {
    /// The elements of the list that is matched.
    pub list: ListView<'a, A>,
    /// The pid of the process whose event it is.
    pub self_pid: u32,
    /// The function of the frame beneath; None for an entry call.
    pub caller: Option<&'a Mfa<A>>,
    /// Which processes live.
    pub alive: &'f Alive,
    /// The flags of all processes in the session.
    pub flags: &'f FlagTable,
}

impl<'a, 'f, A: Allocator> Context<'a, 'f, A> {
    /// The flags of all processes after these effects.
    pub(crate) fn flags_after(&self, effects: &[Effect<'_, A>]) -> FlagTable
        ensures { table_of result ≡ (context_at self.now effects.now).flags }
    {
        let mut flags = *self.flags;
        for effect in effects {
            effect.apply_to(&mut flags, self.self_pid);
        }
        flags
    }
}
