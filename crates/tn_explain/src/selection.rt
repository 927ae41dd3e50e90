// What is selected of a run.
use std::alloc::Allocator;
use tn_running_node::is_session;
use tn_term::Atom;

/// What is selected of a run: the session of a name alone, and the move of a number alone, where they are given.
#[derive(Clone, Copy)]
pub(crate) struct Selection<'a> {
    pub session: Option<&'a str>,
    pub move_number: Option<u64>,
}

impl Selection<'_> {
    ghost use Rattle.std.specs.Prelude.{◌≡◌};
    ghost use Rattle.def_explain.specs.RunTexts.{is_session, is_move};
    ghost use Rattle.tn_explain.specs.Filters.{selection_seen};

    /// Whether the move of this number is selected.
    pub fn selects(&self, number: u64) -> bool
        ensures { result ≡ is_move (selection_seen self.now).move number }
    {
        match self.move_number {
            None => true,
            Some(wanted) => wanted == number,
        }
    }

    /// Whether the session of this name is selected.
    pub fn is_session<A: Allocator>(&self, name: &Atom<A>) -> bool
        ensures { result ≡ is_session (selection_seen self.now).session name.now }
    {
        is_session(self.session, name)
    }
}
