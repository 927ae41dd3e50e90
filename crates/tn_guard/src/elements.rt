// Functions of lists and tuples.
ghost use Rattle.std.specs.Prelude.{◌≡◌};
ghost use Rattle.std.specs.Option.{option_map};
ghost use Rattle.def_term.specs.Tree.{int, tuple};
ghost use Rattle.def_spec.specs.Functions.{first_element, tail_of, length_of, tuple_size_of, element_of};
ghost use Rattle.tn_guard.specs.Views.{value_seen, shape_seen, list_view_seen};

use crate::list_view::ListView;
use crate::shape::Shape;
use crate::value::Value;
use std::alloc::Allocator;

impl<'a, A: Allocator> Shape<'a, A> {
    /// `hd`: the first element of a nonempty list.
    pub fn head(self) -> Option<Value<'a, A>>
        ensures { option_map value_seen result ≡ first_element (shape_seen self.entry) }
    {
        match self {
            Shape::List(parts) => parts.first(),
            _ => None,
        }
    }

    /// `tl`: the elements of a nonempty list after the first.
    pub fn tail(self) -> Option<Value<'a, A>>
        ensures { option_map value_seen result ≡ tail_of (shape_seen self.entry) }
    {
        match self {
            Shape::List(parts) => parts.after_first(),
            _ => None,
        }
    }

    /// `length`: how many elements a list has.
    pub fn length(self) -> Option<Value<'a, A>>
        ensures { option_map value_seen result ≡ length_of (shape_seen self.entry) }
    {
        match self {
            Shape::List(parts) => Some(Value::Int(parts.len() as i64)),
            _ => None,
        }
    }

    /// `size` and `tuple_size`: how many elements a tuple has.
    pub fn tuple_size(self) -> Option<Value<'a, A>>
        ensures { option_map value_seen result ≡ tuple_size_of (shape_seen self.entry) }
    {
        match self {
            Shape::Tuple(parts) => Some(Value::Int(parts.len() as i64)),
            _ => None,
        }
    }

    /// `element`: the element of a tuple that has this number, from 1.
    pub fn element(self, tuple: Shape<'a, A>) -> Option<Value<'a, A>>
        ensures { option_map value_seen result ≡ element_of (shape_seen self.entry) (shape_seen tuple.entry) }
    {
        match (self, tuple) {
            (Shape::Int(number), Shape::Tuple(parts)) => element_at(number, parts),
            _ => None,
        }
    }
}

/// The element that has this number, from 1.
fn element_at<'a, A: Allocator>(number: i64, parts: ListView<'a, A>) -> Option<Value<'a, A>>
    ensures { option_map value_seen result ≡ element_of (int number) (tuple (list_view_seen parts.entry)) }
{
    if number < 1 {
        return None;
    }
    let place = (number - 1) as usize;
    if place < parts.len() {
        Some(parts.at(place))
    } else {
        None
    }
}
