// A value with its first level open: its kind, its order and its equality.
ghost use Rattle.std.specs.Prelude.{◌≡◌};
ghost use Rattle.def_term.specs.Tree.{atom, list};
ghost use Rattle.def_term.specs.Order.{rank, tree_cmp, trees_cmp, same};
ghost use Rattle.tn_term.specs.Views.{tree_of};
ghost use Rattle.tn_guard.specs.Views.{value_seen, shape_seen, list_view_seen};

use crate::list_view::ListView;
use crate::value::Value;
use std::alloc::Allocator;
use std::cmp::Ordering;
use tn_term::{Term, same_terms};

/// A value by its kind, with what it is made of.
#[derive_where(Clone, Copy)]
pub enum Shape<'a, A: Allocator> {
    Int(i64),
    Atom(&'a str),
    Pid(u32),
    Tuple(ListView<'a, A>),
    List(ListView<'a, A>),
}

impl<'a, A: Allocator> Shape<'a, A> {
    /// The shape of a term.
    pub fn of(term: &'a Term<A>) -> Shape<'a, A>
        ensures { shape_seen result ≡ tree_of term.now }
    {
        match term {
            Term::Int(n) => Shape::Int(*n),
            Term::Atom(name) => Shape::Atom(name.text()),
            Term::Pid(n) => Shape::Pid(*n),
            Term::Tuple(items) => Shape::Tuple(ListView::Terms(items.as_slice())),
            Term::List(items) => Shape::List(ListView::Terms(items.as_slice())),
        }
    }

    /// The number of the kind, in the order of the kinds.
    fn rank(self) -> u8
        ensures { result ≡ rank (shape_seen self.entry) }
    {
        match self {
            Shape::Int(_) => 0,
            Shape::Atom(_) => 1,
            Shape::Pid(_) => 2,
            Shape::Tuple(_) => 3,
            Shape::List(_) => 4,
        }
    }

    /// The order of terms ("Term Comparisons" of the Erlang Reference Manual).
    pub fn order<'b, B: Allocator>(self, other: Shape<'b, B>) -> Ordering
        ensures { result ≡ tree_cmp (shape_seen self.entry) (shape_seen other.entry) }
    {
        order_shapes(self, other)
    }

    /// Whether both are the same term. Two tuples or two lists of terms are compared without a shape for each
    /// element.
    pub fn same<'b, B: Allocator>(self, other: Shape<'b, B>) -> bool
        ensures { result ≡ same (shape_seen self.entry) (shape_seen other.entry) }
    {
        match (self, other) {
            (Shape::Tuple(parts), Shape::Tuple(others)) => same_parts(parts, others),
            (Shape::List(parts), Shape::List(others)) => same_parts(parts, others),
            _ => self.order(other).is_eq(),
        }
    }

    /// Whether it is the atom of this text.
    pub fn is_word(self, text: &str) -> bool
        ensures { result ≡ same (shape_seen self.entry) (atom text.now) }
    {
        match self {
            Shape::Atom(name) => name == text,
            _ => false,
        }
    }
}

/// Whether both are the same elements in the same order.
fn same_parts<A: Allocator, B: Allocator>(one: ListView<'_, A>, other: ListView<'_, B>) -> bool
    ensures { result ≡ same (list (list_view_seen one.entry)) (list (list_view_seen other.entry)) }
{
    match (one, other) {
        (ListView::Terms(terms), ListView::Terms(others)) => same_terms(terms, others),
        _ => order_parts(one, other).is_eq(),
    }
}

/// The order of two values. Terms that are lent are compared without shapes.
#[cycle(order)]
pub fn order_values<A: Allocator, B: Allocator>(one: Value<'_, A>, other: Value<'_, B>) -> Ordering
    ensures { result ≡ tree_cmp (value_seen one.entry) (value_seen other.entry) }
{
    match (one, other) {
        (Value::Lent(term), Value::Lent(other)) => term.order(other),
        _ => order_shapes(one.shape(), other.shape()),
    }
}

/// The order of two shapes.
#[cycle(order)]
fn order_shapes<A: Allocator, B: Allocator>(one: Shape<'_, A>, other: Shape<'_, B>) -> Ordering
    ensures { result ≡ tree_cmp (shape_seen one.entry) (shape_seen other.entry) }
{
    match (one, other) {
        (Shape::Int(m), Shape::Int(n)) => m.cmp(&n),
        (Shape::Atom(r), Shape::Atom(s)) => r.cmp(s),
        (Shape::Pid(m), Shape::Pid(n)) => m.cmp(&n),
        (Shape::Tuple(v), Shape::Tuple(w)) => match v.len().cmp(&w.len()) {
            Ordering::Equal => order_parts(v, w),
            unequal => unequal,
        },
        (Shape::List(v), Shape::List(w)) => order_parts(v, w),
        _ => one.rank().cmp(&other.rank()),
    }
}

/// The order of two lists of elements, a beginning first.
#[cycle(order)]
fn order_parts<A: Allocator, B: Allocator>(v: ListView<'_, A>, w: ListView<'_, B>) -> Ordering
    ensures { result ≡ trees_cmp (list_view_seen v.entry) (list_view_seen w.entry) }
{
    for i in 0..v.len().min(w.len()) {
        match order_values(v.at(i), w.at(i)) {
            Ordering::Equal => {}
            unequal => return unequal,
        }
    }
    v.len().cmp(&w.len())
}
