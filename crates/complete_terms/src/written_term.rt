// Terms beside their texts.
ghost use Rattle.std.specs.Prelude.{◌≡◌, IfOk};
ghost use Rattle.def_term.specs.Text.{w};
ghost use Rattle.tn_term.specs.Views.{tree_of};
ghost use Rattle.tn_text.specs.WrittenTrees.{written_tree};

use std::alloc::{AllocError, Allocator};
use tn_term::Term;
use tn_text::WrittenTerm;

/// `tn_text::WrittenTerm::new` has one answer.
pub fn new<A: Allocator + Copy>(
    alloc: A,
    one: Term<A>,
    other: Term<A>,
) -> (
    Result<WrittenTerm<A>, AllocError>,
    Result<WrittenTerm<A>, AllocError>,
)
    requires { tree_of one ≡ tree_of other }
    ensures { IfOk result.0 (λ x. IfOk result.1 (λ y. written_tree x ≡ written_tree y)) }
{
    let first = WrittenTerm::new(alloc, one);
    let second = WrittenTerm::new(alloc, other);
    (first, second)
}

/// `tn_text::WrittenTerm::of_text` has one answer.
pub fn of_text<A: Allocator + Copy>(
    alloc: A,
    one: Term<A>,
    other: Term<A>,
    text: Vec<u8, A>,
    same_text: Vec<u8, A>,
) -> (
    Result<WrittenTerm<A>, AllocError>,
    Result<WrittenTerm<A>, AllocError>,
)
    requires same { tree_of one ≡ tree_of other }
    requires text { text.items ≡ w (tree_of one) }
    requires same_text { same_text.items ≡ w (tree_of one) }
    ensures { IfOk result.0 (λ x. IfOk result.1 (λ y. written_tree x ≡ written_tree y)) }
{
    let first = WrittenTerm::of_text(alloc, one, text);
    let second = WrittenTerm::of_text(alloc, other, same_text);
    (first, second)
}

/// `tn_text::WrittenTerm::share` has one answer.
pub fn share<A: Allocator>(
    one: &WrittenTerm<A>,
    other: &WrittenTerm<A>,
) -> (
    Result<WrittenTerm<A>, AllocError>,
    Result<WrittenTerm<A>, AllocError>,
)
    requires { written_tree one.now ≡ written_tree other.now }
    ensures { IfOk result.0 (λ x. IfOk result.1 (λ y. written_tree x ≡ written_tree y)) }
{
    let first = one.share();
    let second = other.share();
    (first, second)
}

/// `tn_text::WrittenTerm::term` has one answer.
pub fn term<'a, A: Allocator>(
    one: &'a WrittenTerm<A>,
    other: &'a WrittenTerm<A>,
) -> (&'a Term<A>, &'a Term<A>)
    requires { written_tree one.now ≡ written_tree other.now }
    ensures { tree_of result.0.now ≡ tree_of result.1.now }
{
    (one.term(), other.term())
}

/// `tn_text::WrittenTerm::text` has one answer.
pub fn text<'a, A: Allocator>(
    one: &'a WrittenTerm<A>,
    other: &'a WrittenTerm<A>,
) -> (&'a [u8], &'a [u8])
    requires { written_tree one.now ≡ written_tree other.now }
    ensures { result.0.now ≡ result.1.now }
{
    (one.text(), other.text())
}
