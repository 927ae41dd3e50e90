// The elements of a tuple or list.
ghost use Rattle.std.specs.Prelude.{◌≡◌, ◌<◌};
ghost use Rattle.def_term.specs.Tree.{count};
ghost use Rattle.tn_guard.specs.Views.{value_seen, list_view_seen};

use std::alloc::Allocator;
use tn_guard::{ListView, Value};

/// `tn_guard::ListView::len` has one answer.
pub fn len<'a, A: Allocator>(one: ListView<'a, A>, other: ListView<'a, A>) -> (usize, usize)
    requires { list_view_seen one ≡ list_view_seen other }
    ensures { result.0 ≡ result.1 }
{
    (one.len(), other.len())
}

/// `tn_guard::ListView::at` has one answer.
pub fn at<'a, A: Allocator>(
    one: ListView<'a, A>,
    other: ListView<'a, A>,
    place: usize,
) -> (Value<'a, A>, Value<'a, A>)
    requires same { list_view_seen one ≡ list_view_seen other }
    requires inside { place < count (list_view_seen one) }
    ensures { value_seen result.0 ≡ value_seen result.1 }
{
    (one.at(place), other.at(place))
}

/// `tn_guard::ListView::list` has one answer.
pub fn list<'a, A: Allocator>(
    one: ListView<'a, A>,
    other: ListView<'a, A>,
) -> (Value<'a, A>, Value<'a, A>)
    requires { list_view_seen one ≡ list_view_seen other }
    ensures { value_seen result.0 ≡ value_seen result.1 }
{
    (one.list(), other.list())
}
