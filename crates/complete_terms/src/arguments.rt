// The arguments of calls and spawns.
ghost use Rattle.std.specs.Prelude.{◌≡◌, IfOk, map};
ghost use Rattle.tn_term.specs.SharedTree.{shared_tree};
ghost use Rattle.tn_term.specs.Views.{tree_of};

use std::alloc::{AllocError, Allocator};
use tn_flags::{own_arguments, share_arguments};
use tn_term::{SharedTerm, Term};

/// `tn_flags::own_arguments` has one answer.
pub fn own<A: Allocator + Copy>(
    alloc: A,
    one: Vec<Term<A>, A>,
    other: Vec<Term<A>, A>,
) -> (
    Result<Vec<SharedTerm<A>, A>, AllocError>,
    Result<Vec<SharedTerm<A>, A>, AllocError>,
)
    requires { map tree_of one.items ≡ map tree_of other.items }
    ensures { IfOk result.0 (λ v. IfOk result.1 (λ w. map shared_tree v.items ≡ map shared_tree w.items)) }
{
    let first = own_arguments(alloc, one);
    let second = own_arguments(alloc, other);
    (first, second)
}

/// `tn_flags::share_arguments` has one answer.
pub fn share<A: Allocator + Copy>(
    alloc: A,
    one: &Vec<SharedTerm<A>, A>,
    other: &Vec<SharedTerm<A>, A>,
) -> (
    Result<Vec<SharedTerm<A>, A>, AllocError>,
    Result<Vec<SharedTerm<A>, A>, AllocError>,
)
    requires { map shared_tree one.now.items ≡ map shared_tree other.now.items }
    ensures { IfOk result.0 (λ v. IfOk result.1 (λ w. map shared_tree v.items ≡ map shared_tree w.items)) }
{
    let first = share_arguments(alloc, one);
    let second = share_arguments(alloc, other);
    (first, second)
}
