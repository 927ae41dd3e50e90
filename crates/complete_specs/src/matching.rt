// A head, held against the list that is matched.
ghost use Rattle.std.specs.Prelude.{◌≡◌, IfOk, map};
ghost use Rattle.tn_guard.specs.Views.{value_seen};
ghost use Rattle.tn_head.specs.Answers.{found_seen};
ghost use Rattle.tn_head.specs.Matching.{bound_if, list_seen};
ghost use Rattle.tn_head.specs.Views.{binding_seen};
ghost use Rattle.tn_spec.specs.Views.{head_seen};

use std::alloc::{AllocError, Allocator};
use tn_guard::{ListView, Value};
use tn_head::{Bindings, SomeBindings};
use tn_spec::{Head, Pattern};

/// `tn_head::bind` has one answer.
pub fn bind<'a, P: Allocator, A: Allocator, B: Allocator + Copy>(
    alloc: B,
    head: &Head<P>,
    again: &Head<P>,
    one: ListView<'a, A>,
    other: ListView<'a, A>,
) -> (
    Result<Option<Bindings<'a, A, B>>, AllocError>,
    Result<Option<Bindings<'a, A, B>>, AllocError>,
)
    requires heads { head_seen head.now ≡ head_seen again.now }
    requires lists { list_seen one ≡ list_seen other }
    ensures { IfOk result.0 (λ o. IfOk result.1 (λ p. found_seen o ≡ found_seen p)) }
{
    (
        tn_head::bind(alloc, head, one),
        tn_head::bind(alloc, again, other),
    )
}

/// `tn_head::bind_on` has one answer but for what is bound where the pattern isn't the value: that is given up.
pub fn bind_on<'a, P: Allocator, A: Allocator, B: Allocator + Copy>(
    pattern: &Pattern<P>,
    value: Value<'a, A>,
    one: &mut SomeBindings<'a, A, B>,
    other: &mut SomeBindings<'a, A, B>,
) -> (Result<bool, AllocError>, Result<bool, AllocError>)
    requires { map binding_seen one.old.items ≡ map binding_seen other.old.items }
    ensures matches { IfOk result.0 (λ m. IfOk result.1 (λ n. m ≡ n)) }
    ensures bound { IfOk result.0 (λ m. IfOk result.1 (λ n. bound_if m one.new.items ≡ bound_if n other.new.items)) }
{
    let first = tn_head::bind_on(pattern, value, one);
    let second = tn_head::bind_on(pattern, value, other);
    (first, second)
}
