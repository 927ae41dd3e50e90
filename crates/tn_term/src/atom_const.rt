// Atoms of texts that are known to be ones.
ghost use Rattle.std.specs.Prelude.{◌≡◌, IfOk};
ghost use Rattle.def_term.specs.Tree.{atom};
ghost use Rattle.def_term.specs.Atoms.{IsAtomText};
ghost use Rattle.tn_term.specs.Views.{tree_of};

use crate::atom::Atom;
use crate::term::Term;
use std::alloc::{AllocError, Allocator};

impl<A: Allocator> Atom<A> {
    /// The atom of a text that may be one.
    pub fn of(alloc: A, text: &str) -> Result<Atom<A>, AllocError>
        requires { IsAtomText text.now }
        ensures { IfOk result (λ a. a ≡ text.now) }
    {
        match Atom::new(alloc, text)? {
            Some(name) => Ok(name),
            None => unreachable!(),
        }
    }
}

impl<A: Allocator> Term<A> {
    /// The atom of a text that may be one, as a term.
    pub fn word(alloc: A, text: &str) -> Result<Term<A>, AllocError>
        requires { IsAtomText text.now }
        ensures { IfOk result (λ t. tree_of t ≡ atom text.now) }
    {
        Ok(Term::Atom(Atom::of(alloc, text)?))
    }
}
