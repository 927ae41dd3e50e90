// The functions that calls and commands name.
ghost use Rattle.std.specs.Prelude.{◌≡◌, IfOk};
ghost use Rattle.def_term.specs.Names.{same_mfa};
ghost use Rattle.tn_term.specs.Views.{mfa_seen};

use crate::atom::Atom;
use std::alloc::{AllocError, Allocator};

/// A function: its module, its name and its number of parameters.
#[derive(Drop)]
pub struct Mfa<A: Allocator> {
    pub module: Atom<A>,
    pub name: Atom<A>,
    pub arity: u8,
}

impl<A: Allocator> Mfa<A> {
    /// The same function in another allocator.
    pub fn copy_into<B: Allocator + Copy>(&self, b: B) -> Result<Mfa<B>, AllocError>
        ensures { IfOk result (λ m. mfa_seen m ≡ mfa_seen self.now) }
    {
        Ok(Mfa {
            module: self.module.copy_into(b)?,
            name: self.name.copy_into(b)?,
            arity: self.arity,
        })
    }

    /// Whether both name the same function.
    pub fn same<B: Allocator>(&self, other: &Mfa<B>) -> bool
        ensures { result ≡ same_mfa (mfa_seen self.now) (mfa_seen other.now) }
    {
        self.module.text() == other.module.text()
            && self.name.text() == other.name.text()
            && self.arity == other.arity
    }
}
