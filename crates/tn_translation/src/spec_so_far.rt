// The clauses of a specification so far.
ghost use Rattle.std.specs.Prelude.{◌≡◌, map};
ghost use Rattle.tn_term.specs.Views.{tree_of};
ghost use Rattle.tn_translation.specs.OpenTexts.{open_list_text};

use std::alloc::Allocator;
use tn_term::Term;

/// The clauses of a specification so far, and the text of their list without its `]`.
#[derive(Drop)]
pub struct SpecSoFar<A: Allocator> {
    pub clauses: Vec<Term<A>, A>,
    pub text: Vec<u8, A>,
    ghost same: { text.items ≡ open_list_text (map tree_of clauses.items) },
}
