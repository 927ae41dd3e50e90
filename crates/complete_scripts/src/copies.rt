// Copies of the parts of forms.
ghost use Rattle.std.specs.Prelude.{◌≡◌, IfOk};
ghost use Rattle.tn_script.specs.Views.{entry_of};

use std::alloc::{AllocError, Allocator};
use tn_script::Entry;
use tn_term::Atom;

/// `tn_script::copy_target` has one answer.
pub fn copy_target<A: Allocator + Copy>(
    alloc: A,
    one: &Option<Atom<A>>,
    other: &Option<Atom<A>>,
) -> (
    Result<Option<Atom<A>>, AllocError>,
    Result<Option<Atom<A>>, AllocError>,
)
    requires { one.now ≡ other.now }
    ensures { IfOk result.0 (λ x. IfOk result.1 (λ y. x ≡ y)) }
{
    let first = tn_script::copy_target(alloc, one);
    let second = tn_script::copy_target(alloc, other);
    (first, second)
}

/// `tn_script::copy_entry` has one answer.
pub fn copy_entry<A: Allocator + Copy>(
    alloc: A,
    one: &Entry<A>,
    other: &Entry<A>,
) -> (Result<Entry<A>, AllocError>, Result<Entry<A>, AllocError>)
    requires { entry_of one.now ≡ entry_of other.now }
    ensures { IfOk result.0 (λ x. IfOk result.1 (λ y. entry_of x ≡ entry_of y)) }
{
    let first = tn_script::copy_entry(alloc, one);
    let second = tn_script::copy_entry(alloc, other);
    (first, second)
}
