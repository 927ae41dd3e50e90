// The elements of a tuple or list: terms or values.
ghost use Rattle.std.specs.Prelude.{◌≡◌, ◌<◌, ◌^◌, length, Some};
ghost use Rattle.std.specs.Option.{option_map};
ghost use Rattle.def_term.specs.Tree.{list, count};
ghost use Rattle.def_spec.specs.Functions.{nth, first_element, tail_of};
ghost use Rattle.tn_guard.specs.Views.{value_seen, values_seen, list_view_seen};

use crate::value::Value;
use std::alloc::Allocator;
use std::mem::size_of_val;
use tn_term::Term;

/// The elements of a tuple or list: terms that are lent, or values.
#[derive_where(Clone, Copy)]
pub enum ListView<'a, A: Allocator> {
    Terms(&'a [Term<A>]),
    Values(&'a [Value<'a, A>]),
}

impl<'a, A: Allocator> ListView<'a, A> {
    /// How many there are.
    pub fn len(self) -> usize
        ensures counted { result ≡ count (list_view_seen self.entry) }
        ensures small { result < 2 ^ 63 }
    {
        match self {
            ListView::Terms(items) => count_of(items),
            ListView::Values(items) => items.len(),
        }
    }

    /// The element at this place.
    pub fn at(self, place: usize) -> Value<'a, A>
        requires { place < count (list_view_seen self) }
        ensures { Some (value_seen result) ≡ nth (list_view_seen self.entry) place }
    {
        match self {
            ListView::Terms(items) => Value::Lent(&items[place]),
            ListView::Values(items) => value_at(items, place),
        }
    }

    /// The list of these elements.
    pub fn list(self) -> Value<'a, A>
        ensures { value_seen result ≡ list (list_view_seen self.entry) }
    {
        match self {
            ListView::Terms(items) => Value::Rest(items),
            ListView::Values(items) => Value::List(items),
        }
    }

    /// The first element of a nonempty list.
    pub(crate) fn first(self) -> Option<Value<'a, A>>
        ensures { option_map value_seen result ≡ first_element (list (list_view_seen self.entry)) }
    {
        if self.len() == 0 {
            None
        } else {
            Some(self.at(0))
        }
    }

    /// The list of the elements after the first.
    pub(crate) fn after_first(self) -> Option<Value<'a, A>>
        ensures { option_map value_seen result ≡ tail_of (list (list_view_seen self.entry)) }
    {
        match self {
            ListView::Terms([_, rest @ ..]) => Some(Value::Rest(rest)),
            ListView::Values(items) => values_after_first(items),
            ListView::Terms(_) => None,
        }
    }
}

/// How many terms there are. Each takes more than a byte, so there are fewer than 2 ^ 63.
fn count_of<A: Allocator>(items: &[Term<A>]) -> usize
    ensures counted { result ≡ length items.now }
    ensures small { result < 2 ^ 63 }
{
    let _bytes = size_of_val(items);
    items.len()
}

/// The value at this place.
fn value_at<'a, A: Allocator>(items: &[Value<'a, A>], place: usize) -> Value<'a, A>
    requires { place < length items.now }
    ensures { Some (value_seen result) ≡ nth (values_seen items.now) place }
{
    items[place]
}

/// The list of the values after the first.
fn values_after_first<'a, A: Allocator>(items: &'a [Value<'a, A>]) -> Option<Value<'a, A>>
    ensures { option_map value_seen result ≡ tail_of (list (values_seen items.now)) }
{
    match items {
        [_, rest @ ..] => Some(Value::List(rest)),
        [] => None,
    }
}
