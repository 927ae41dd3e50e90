// The kinds of terms.
ghost use Rattle.std.specs.Prelude.{◌≡◌};
ghost use Rattle.def_spec.specs.Functions.{atom_test, integer_test, list_test, tuple_test, pid_test, boolean_test};
ghost use Rattle.tn_guard.specs.Views.{shape_seen};

use crate::shape::Shape;
use std::alloc::Allocator;

impl<'a, A: Allocator> Shape<'a, A> {
    /// `is_atom`
    pub fn is_atom(self) -> bool
        ensures { result ≡ atom_test (shape_seen self.entry) }
    {
        matches!(self, Shape::Atom(_))
    }

    /// `is_integer`, and `is_number` in this profile.
    pub fn is_integer(self) -> bool
        ensures { result ≡ integer_test (shape_seen self.entry) }
    {
        matches!(self, Shape::Int(_))
    }

    /// `is_list`; `[]` is a list.
    pub fn is_list(self) -> bool
        ensures { result ≡ list_test (shape_seen self.entry) }
    {
        matches!(self, Shape::List(_))
    }

    /// `is_tuple`
    pub fn is_tuple(self) -> bool
        ensures { result ≡ tuple_test (shape_seen self.entry) }
    {
        matches!(self, Shape::Tuple(_))
    }

    /// `is_pid`
    pub fn is_pid(self) -> bool
        ensures { result ≡ pid_test (shape_seen self.entry) }
    {
        matches!(self, Shape::Pid(_))
    }

    /// `is_boolean`: `true` for the atoms `true` and `false`.
    pub fn is_boolean(self) -> bool
        ensures { result ≡ boolean_test (shape_seen self.entry) }
    {
        self.is_word("true") || self.is_word("false")
    }
}
