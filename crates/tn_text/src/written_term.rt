// A term beside its text.
ghost use Rattle.std.specs.Prelude.{◌≡◌, IfOk};
ghost use Rattle.def_term.specs.Text.{w};
ghost use Rattle.tn_term.specs.Views.{tree_of};

use crate::write::write_term;
use std::alloc::{AllocError, Allocator};
use std::sync::Arc;
use tn_term::Term;

/// A term and its text.
#[derive(Drop)]
pub(crate) struct TermAndText<A: Allocator> {
    term: Term<A>,
    text: Vec<u8, A>,
    ghost is_text: { text.items ≡ w (tree_of term) },
}

/// A term beside its text, with several owners: one more takes a count, however large both are.
#[derive(Drop)]
pub struct WrittenTerm<A: Allocator> {
    pub(crate) shared: Arc<TermAndText<A>, A>,
}

impl<A: Allocator> WrittenTerm<A> {
    ghost use Rattle.tn_text.specs.WrittenTrees.{written_tree};

    /// The term with one owner, and its text. An error is refused memory.
    pub fn new(alloc: A, term: Term<A>) -> Result<WrittenTerm<A>, AllocError>
    where
        A: Copy,
        ensures { IfOk result (λ s. written_tree s ≡ tree_of term) }
    {
        let mut text = Vec::new(alloc);
        write_term(&term, &mut text)?;
        WrittenTerm::of_text(alloc, term, text)
    }

    /// The term with one owner, where its text is known. An error is refused memory.
    pub fn of_text(alloc: A, term: Term<A>, text: Vec<u8, A>) -> Result<WrittenTerm<A>, AllocError>
        requires { text.items ≡ w (tree_of term) }
        ensures { IfOk result (λ s. written_tree s ≡ tree_of term) }
    {
        Ok(WrittenTerm {
            shared: Arc::new(alloc, TermAndText { term, text })?,
        })
    }

    /// The same term with one more owner. It is refused only where the count of owners is full.
    pub fn share(&self) -> Result<WrittenTerm<A>, AllocError>
        ensures { IfOk result (λ s. written_tree s ≡ written_tree self.now) }
    {
        Ok(WrittenTerm {
            shared: Arc::try_clone(&self.shared)?,
        })
    }

    /// The term itself.
    pub fn term(&self) -> &Term<A>
        ensures { tree_of result.now ≡ written_tree self.now }
    {
        &self.shared.term
    }

    /// The term's text.
    pub fn text(&self) -> &[u8]
        ensures { result.now ≡ w (written_tree self.now) }
    {
        &self.shared.text
    }
}
