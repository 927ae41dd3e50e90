// A term with several owners.
ghost use Rattle.std.specs.Prelude.{◌≡◌, IfOk, min};
ghost use Rattle.def_term.specs.Tree.{depth as nesting, size as extent};
ghost use Rattle.std.specs.Arc.{arc_value};
ghost use Rattle.std.below.core.specs.declared.int.u64.TheConstants.{MAX};
ghost use Rattle.tn_term.specs.Views.{tree_of};

use crate::term::Term;
use std::alloc::{AllocError, Allocator};
use std::sync::Arc;

/// A term with several owners: one more takes a count, however large the term is. Its size and its
/// depth are beside it, so whether it is within limits takes no walk through it.
#[derive(Drop)]
pub struct SharedTerm<A: Allocator> {
    pub(crate) term: Arc<Term<A>, A>,
    pub(crate) size: u64,
    pub(crate) depth: u64,
    ghost size_is: { size ≡ min (extent (tree_of (arc_value term))) MAX },
    ghost depth_is: { depth ≡ min (nesting (tree_of (arc_value term))) MAX },
}

impl<A: Allocator> SharedTerm<A> {
    ghost use Rattle.tn_term.specs.SharedTree.{shared_tree};

    /// The term with one owner.
    pub fn new(alloc: A, term: Term<A>) -> Result<SharedTerm<A>, AllocError>
        ensures { IfOk result (λ s. shared_tree s ≡ tree_of term) }
    {
        let size = term.size();
        let depth = term.depth();
        SharedTerm::of_measure(alloc, term, size, depth)
    }

    /// The term with one owner, where its size and its depth are known.
    pub fn of_measure(
        alloc: A,
        term: Term<A>,
        size: u64,
        depth: u64,
    ) -> Result<SharedTerm<A>, AllocError>
        requires size_is { size ≡ min (extent (tree_of term)) MAX }
        requires depth_is { depth ≡ min (nesting (tree_of term)) MAX }
        ensures { IfOk result (λ s. shared_tree s ≡ tree_of term) }
    {
        Ok(SharedTerm {
            term: Arc::new(alloc, term)?,
            size,
            depth,
        })
    }

    /// The same term with one more owner. It is refused only where the count of owners is full.
    pub fn share(&self) -> Result<SharedTerm<A>, AllocError>
        ensures { IfOk result (λ s. shared_tree s ≡ shared_tree self.now) }
    {
        Ok(SharedTerm {
            term: Arc::try_clone(&self.term)?,
            size: self.size,
            depth: self.depth,
        })
    }

    /// The term itself.
    pub fn term(&self) -> &Term<A>
        ensures { tree_of result.now ≡ shared_tree self.now }
    {
        &*self.term
    }

    /// How many terms it consists of, with itself. Nothing is walked through.
    pub fn size(&self) -> u64
        ensures { result ≡ min (extent (shared_tree self.now)) MAX }
    {
        self.size
    }

    /// How deep its tuples and lists nest. Nothing is walked through.
    pub fn depth(&self) -> u64
        ensures { result ≡ min (nesting (shared_tree self.now)) MAX }
    {
        self.depth
    }
}
