// Logic on values, where anything but `true` counts as not true (own).
ghost use Rattle.std.specs.Prelude.{◌≡◌, map};
ghost use Rattle.def_spec.specs.Functions.{is_true, all_true, some_true, differ};
ghost use Rattle.tn_guard.specs.Views.{value_seen, shape_seen};

use crate::shape::Shape;
use crate::value::Value;
use std::alloc::Allocator;

impl<'a, A: Allocator> Value<'a, A> {
    /// Whether it is the atom `true`.
    pub fn is_true(self) -> bool
        ensures { result ≡ is_true (value_seen self.entry) }
    {
        self.is_word("true")
    }
}

impl<'a, A: Allocator> Shape<'a, A> {
    /// `xor`: whether one is `true` and the other `false`.
    pub fn differs(self, other: Shape<'a, A>) -> bool
        ensures { result ≡ differ (shape_seen self.entry) (shape_seen other.entry) }
    {
        (self.is_word("true") && other.is_word("false"))
            || (self.is_word("false") && other.is_word("true"))
    }
}

/// `and`
pub fn all_true<A: Allocator>(values: &[Value<'_, A>]) -> bool
    ensures { result ≡ all_true (map value_seen values.now) }
{
    for value in values {
        if !value.is_true() {
            return false;
        }
    }
    true
}

/// `or`
pub fn some_true<A: Allocator>(values: &[Value<'_, A>]) -> bool
    ensures { result ≡ some_true (map value_seen values.now) }
{
    for value in values {
        if value.is_true() {
            return true;
        }
    }
    false
}
