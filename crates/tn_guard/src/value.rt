// Values: terms that are lent, and what functions and expressions make.
ghost use Rattle.std.specs.Prelude.{◌≡◌};
ghost use Rattle.std.specs.Option.{option_map};
ghost use Rattle.def_term.specs.Tree.{int, atom, pid_in};
ghost use Rattle.def_term.specs.Atoms.{IsAtomText};
ghost use Rattle.def_term.specs.Order.{same};
ghost use Rattle.def_spec.specs.Functions.{truth};
ghost use Rattle.tn_term.specs.Views.{tree_of};
ghost use Rattle.tn_guard.specs.Views.{atom_const_seen, value_seen, shape_seen, list_view_seen};
ghost use Rattle.tn_guard.specs.Views.{text_in, tuple_trees, list_trees};

use crate::list_view::ListView;
use crate::shape::Shape;
use std::alloc::Allocator;
use tn_term::{Atom, Term, same_terms};

/// An atom that evaluation makes.
#[derive(Clone, Copy)]
pub enum AtomConst {
    True,
    False,
    /// `nonode@nohost`
    Node,
    /// `'EXIT'`
    Exit,
    /// `undefined`
    Undefined,
}

/// The value of an expression ("Match Specifications in Erlang", "Functions Allowed in All Types of Match
/// Specifications"): a term, an atom or the terms of a list that are lent; a small term that a function
/// makes; or a tuple or list of values that lie in an arena.
#[derive_where(Clone, Copy)]
pub enum Value<'a, A: Allocator> {
    Lent(&'a Term<A>),
    /// The list of these terms.
    Rest(&'a [Term<A>]),
    Name(&'a Atom<A>),
    Int(i64),
    Pid(u32),
    AtomConst(AtomConst),
    /// The tuple of these values.
    Tuple(&'a [Value<'a, A>]),
    /// The list of these values.
    List(&'a [Value<'a, A>]),
}

impl AtomConst {
    /// The atom's text.
    pub fn text(self) -> &'static str
        ensures seen { atom result.now ≡ atom_const_seen self }
        ensures valid { IsAtomText result.now }
    {
        match self {
            AtomConst::True => "true",
            AtomConst::False => "false",
            AtomConst::Node => "nonode@nohost",
            AtomConst::Exit => "EXIT",
            AtomConst::Undefined => "undefined",
        }
    }
}

impl<'a, A: Allocator> Default for Value<'a, A> {
    /// `false`
    fn default() -> Value<'a, A> {
        Value::AtomConst(AtomConst::False)
    }
}

impl<'a, A: Allocator> Value<'a, A> {
    /// `true` or `false`.
    pub fn truth(holds: bool) -> Value<'a, A>
        ensures { value_seen result ≡ truth holds }
    {
        if holds {
            Value::AtomConst(AtomConst::True)
        } else {
            Value::AtomConst(AtomConst::False)
        }
    }

    /// The integer, where there is one.
    pub fn integer(number: Option<i64>) -> Option<Value<'a, A>>
        ensures { option_map value_seen result ≡ option_map int number }
    {
        match number {
            Some(n) => Some(Value::Int(n)),
            None => None,
        }
    }

    /// Whether both are the same term.
    pub fn same<'b, B: Allocator>(self, other: Value<'b, B>) -> bool
        ensures { result ≡ same (value_seen self.entry) (value_seen other.entry) }
    {
        match self {
            Value::Lent(term) => other.is_term(term),
            Value::AtomConst(word) => other.is_word(word.text()),
            _ => self.shape().same(other.shape()),
        }
    }

    /// Whether it is that term.
    pub fn is_term<B: Allocator>(self, term: &Term<B>) -> bool
        ensures { result ≡ same (tree_of term.now) (value_seen self.entry) }
    {
        match (self, term) {
            (Value::Lent(own), _) => term.same(own),
            (Value::Rest(own), Term::List(items)) => same_terms(items.as_slice(), own),
            (Value::AtomConst(word), _) => term.is_word(word.text()),
            _ => Shape::of(term).same(self.shape()),
        }
    }

    /// Whether it is the atom of this text.
    pub fn is_word(self, text: &str) -> bool
        ensures { result ≡ same (value_seen self.entry) (atom text.now) }
    {
        match self {
            Value::Lent(term) => term.is_word(text),
            _ => self.shape().is_word(text),
        }
    }

    /// The text of an atom; None of any other term.
    pub fn atom_text(self) -> Option<&'a str>
        ensures { option_map (λ s. s.now) result ≡ text_in (value_seen self.entry) }
    {
        match self.shape() {
            Shape::Atom(text) => Some(text),
            _ => None,
        }
    }

    /// The number of a pid; None of any other term.
    pub fn pid(self) -> Option<u32>
        ensures { result ≡ pid_in (value_seen self.entry) }
    {
        match self.shape() {
            Shape::Pid(n) => Some(n),
            _ => None,
        }
    }

    /// The elements of a tuple; None of any other term.
    pub fn tuple_parts(self) -> Option<ListView<'a, A>>
        ensures { option_map list_view_seen result ≡ tuple_trees (value_seen self.entry) }
    {
        match self {
            Value::Lent(Term::Tuple(items)) => Some(ListView::Terms(items.as_slice())),
            Value::Tuple(items) => Some(ListView::Values(items)),
            _ => None,
        }
    }

    /// The elements of a list; None of any other term.
    pub fn list_parts(self) -> Option<ListView<'a, A>>
        ensures { option_map list_view_seen result ≡ list_trees (value_seen self.entry) }
    {
        match self {
            Value::Lent(Term::List(items)) => Some(ListView::Terms(items.as_slice())),
            Value::Rest(items) => Some(ListView::Terms(items)),
            Value::List(items) => Some(ListView::Values(items)),
            _ => None,
        }
    }

    /// What kind of term it is, with what it is made of.
    pub(crate) fn shape(self) -> Shape<'a, A>
        ensures { shape_seen result ≡ value_seen self.entry }
    {
        match self {
            Value::Lent(term) => Shape::of(term),
            Value::Rest(items) => Shape::List(ListView::Terms(items)),
            Value::Name(name) => Shape::Atom(name.text()),
            Value::Int(n) => Shape::Int(n),
            Value::Pid(n) => Shape::Pid(n),
            Value::AtomConst(word) => Shape::Atom(word.text()),
            Value::Tuple(items) => Shape::Tuple(ListView::Values(items)),
            Value::List(items) => Shape::List(ListView::Values(items)),
        }
    }
}
