// Terms with several owners, as values.
ghost use Rattle.std.specs.Prelude.{◌≡◌, IfOk, map};
ghost use Rattle.tn_term.specs.SharedTree.{shared_tree};
ghost use Rattle.tn_guard.specs.Views.{value_seen};

use crate::value::Value;
use std::alloc::{AllocError, Allocator};
use tn_term::SharedTerm;

/// The terms as values that are lent.
///
/// # Errors
///
/// AllocError where memory for the values was refused. No term is copied.
pub fn lent_values<'a, A: Allocator + Copy>(
    alloc: A,
    terms: &'a Vec<SharedTerm<A>, A>,
) -> Result<Vec<Value<'a, A>, A>, AllocError>
    ensures { IfOk result (λ v. map value_seen v.items ≡ map shared_tree terms.now.items) }
{
    let mut values = Vec::with_capacity(alloc, terms.len())?;
    for term in terms {
        values.push(Value::Lent(term.term()))?;
    }
    Ok(values)
}
