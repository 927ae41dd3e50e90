// Terms with several owners.
ghost use Rattle.std.specs.Prelude.{◌≡◌, IfOk, min};
ghost use Rattle.std.below.core.specs.declared.int.u64.TheConstants.{MAX};
ghost use Rattle.def_term.specs.Tree.{depth as nesting, size as extent};
ghost use Rattle.tn_term.specs.Views.{tree_of};
ghost use Rattle.tn_term.specs.SharedTree.{shared_tree};

use std::alloc::{AllocError, Allocator};
use tn_term::{SharedTerm, Term};

/// `tn_term::SharedTerm::new` has one answer.
pub fn new<A: Allocator + Copy>(
    alloc: A,
    one: Term<A>,
    other: Term<A>,
) -> (
    Result<SharedTerm<A>, AllocError>,
    Result<SharedTerm<A>, AllocError>,
)
    requires { tree_of one ≡ tree_of other }
    ensures { IfOk result.0 (λ x. IfOk result.1 (λ y. shared_tree x ≡ shared_tree y)) }
{
    let first = SharedTerm::new(alloc, one);
    let second = SharedTerm::new(alloc, other);
    (first, second)
}

/// `tn_term::SharedTerm::of_measure` has one answer.
pub fn of_measure<A: Allocator + Copy>(
    alloc: A,
    one: Term<A>,
    other: Term<A>,
    size: u64,
    depth: u64,
) -> (
    Result<SharedTerm<A>, AllocError>,
    Result<SharedTerm<A>, AllocError>,
)
    requires same { tree_of one ≡ tree_of other }
    requires size_is { size ≡ min (extent (tree_of one)) MAX }
    requires depth_is { depth ≡ min (nesting (tree_of one)) MAX }
    ensures { IfOk result.0 (λ x. IfOk result.1 (λ y. shared_tree x ≡ shared_tree y)) }
{
    let first = SharedTerm::of_measure(alloc, one, size, depth);
    let second = SharedTerm::of_measure(alloc, other, size, depth);
    (first, second)
}

/// `tn_term::SharedTerm::share` has one answer.
pub fn share<A: Allocator>(
    one: &SharedTerm<A>,
    other: &SharedTerm<A>,
) -> (
    Result<SharedTerm<A>, AllocError>,
    Result<SharedTerm<A>, AllocError>,
)
    requires { shared_tree one.now ≡ shared_tree other.now }
    ensures { IfOk result.0 (λ x. IfOk result.1 (λ y. shared_tree x ≡ shared_tree y)) }
{
    let first = one.share();
    let second = other.share();
    (first, second)
}

/// `tn_term::SharedTerm::term` has one answer.
pub fn term<'a, A: Allocator>(
    one: &'a SharedTerm<A>,
    other: &'a SharedTerm<A>,
) -> (&'a Term<A>, &'a Term<A>)
    requires { shared_tree one.now ≡ shared_tree other.now }
    ensures { tree_of result.0.now ≡ tree_of result.1.now }
{
    (one.term(), other.term())
}

/// `tn_term::SharedTerm::size` has one answer.
pub fn size<A: Allocator>(one: &SharedTerm<A>, other: &SharedTerm<A>) -> (u64, u64)
    requires { shared_tree one.now ≡ shared_tree other.now }
    ensures { result.0 ≡ result.1 }
{
    (one.size(), other.size())
}

/// `tn_term::SharedTerm::depth` has one answer.
pub fn depth<A: Allocator>(one: &SharedTerm<A>, other: &SharedTerm<A>) -> (u64, u64)
    requires { shared_tree one.now ≡ shared_tree other.now }
    ensures { result.0 ≡ result.1 }
{
    (one.depth(), other.depth())
}
