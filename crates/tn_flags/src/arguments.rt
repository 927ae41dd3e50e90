// The arguments of a call or a spawn, each of which may have several owners.
ghost use Rattle.std.specs.Prelude.{◌≡◌, IfOk, map};
ghost use Rattle.tn_term.specs.SharedTree.{shared_tree};
ghost use Rattle.tn_term.specs.Views.{tree_of};

use std::alloc::{AllocError, Allocator};
use tn_term::{SharedTerm, Term};

/// The same arguments, each with one more owner. No term is copied.
///
/// # Errors
///
/// AllocError where memory for the list was refused, or a count of owners is full.
pub fn share_arguments<A: Allocator + Copy>(
    alloc: A,
    args: &Vec<SharedTerm<A>, A>,
) -> Result<Vec<SharedTerm<A>, A>, AllocError>
    ensures { IfOk result (λ v. map shared_tree v.items ≡ map shared_tree args.now.items) }
{
    let mut owned = Vec::with_capacity(alloc, args.len())?;
    for arg in args {
        owned.push(arg.share()?)?;
    }
    Ok(owned)
}

/// The terms as arguments, each with one owner. No term is copied.
///
/// # Errors
///
/// AllocError where memory was refused.
pub fn own_arguments<A: Allocator + Copy>(
    alloc: A,
    terms: Vec<Term<A>, A>,
) -> Result<Vec<SharedTerm<A>, A>, AllocError>
    ensures { IfOk result (λ v. map shared_tree v.items ≡ map tree_of terms.items) }
{
    let mut args = Vec::with_capacity(alloc, terms.len())?;
    for term in terms {
        args.push(SharedTerm::new(alloc, term)?)?;
    }
    Ok(args)
}
