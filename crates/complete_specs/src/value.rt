// Values, and the atoms that evaluation makes.
ghost use Rattle.std.specs.Prelude.{◌≡◌, IfOk, OnOk, map};
ghost use Rattle.std.specs.Option.{option_map};
ghost use Rattle.tn_term.specs.SharedTree.{shared_tree};
ghost use Rattle.tn_term.specs.Views.{tree_of};
ghost use Rattle.tn_guard.specs.Views.{list_view_seen, value_seen, atom_const_seen};

use std::alloc::{AllocError, Allocator};
use tn_guard::{AtomConst, ListView, Value, lent_values};
use tn_term::{SharedTerm, Term};

/// `tn_guard::AtomConst::text` has one answer.
pub fn text(one: AtomConst, other: AtomConst) -> (&'static str, &'static str)
    requires { atom_const_seen one ≡ atom_const_seen other }
    ensures { result.0.now ≡ result.1.now }
{
    (one.text(), other.text())
}

/// `tn_guard::Value::truth` has one answer.
pub fn truth<'a, A: Allocator>(holds: bool) -> (Value<'a, A>, Value<'a, A>)
    ensures { value_seen result.0 ≡ value_seen result.1 }
{
    (Value::truth(holds), Value::truth(holds))
}

/// `tn_guard::Value::integer` has one answer.
pub fn integer<'a, A: Allocator>(
    number: Option<i64>,
) -> (Option<Value<'a, A>>, Option<Value<'a, A>>)
    ensures { option_map value_seen result.0 ≡ option_map value_seen result.1 }
{
    (Value::integer(number), Value::integer(number))
}

/// `tn_guard::Value::is_true` has one answer.
pub fn is_true<'a, A: Allocator>(one: Value<'a, A>, other: Value<'a, A>) -> (bool, bool)
    requires { value_seen one ≡ value_seen other }
    ensures { result.0 ≡ result.1 }
{
    (one.is_true(), other.is_true())
}

/// `tn_guard::Value::is_word` has one answer.
pub fn is_word<'a, A: Allocator>(one: Value<'a, A>, other: Value<'a, A>, text: &str) -> (bool, bool)
    requires { value_seen one ≡ value_seen other }
    ensures { result.0 ≡ result.1 }
{
    (one.is_word(text), other.is_word(text))
}

/// `tn_guard::write_value` has one answer but for what stands there after refused memory: that is a part of it.
pub fn write_value<'a, A: Allocator, B: Allocator>(
    one: Value<'a, A>,
    other: Value<'a, A>,
    text: &mut Vec<u8, B>,
    again: &mut Vec<u8, B>,
) -> (Result<(), AllocError>, Result<(), AllocError>)
    requires values { value_seen one ≡ value_seen other }
    requires texts { text.old.items ≡ again.old.items }
    ensures { OnOk result.0 (OnOk result.1 (text.new.items ≡ again.new.items)) }
{
    let first = tn_guard::write_value(one, text);
    let second = tn_guard::write_value(other, again);
    (first, second)
}

/// `tn_guard::Value::same` has one answer.
pub fn same<'a, 'b, A: Allocator, B: Allocator>(
    one: Value<'a, A>,
    other: Value<'a, A>,
    value: Value<'b, B>,
) -> (bool, bool)
    requires { value_seen one ≡ value_seen other }
    ensures { result.0 ≡ result.1 }
{
    (one.same(value), other.same(value))
}

/// `tn_guard::Value::is_term` has one answer.
pub fn is_term<'a, A: Allocator, B: Allocator>(
    one: Value<'a, A>,
    other: Value<'a, A>,
    term: &Term<B>,
) -> (bool, bool)
    requires { value_seen one ≡ value_seen other }
    ensures { result.0 ≡ result.1 }
{
    (one.is_term(term), other.is_term(term))
}

/// `tn_guard::Value::atom_text` has one answer.
pub fn atom_text<'a, A: Allocator>(
    one: Value<'a, A>,
    other: Value<'a, A>,
) -> (Option<&'a str>, Option<&'a str>)
    requires { value_seen one ≡ value_seen other }
    ensures { option_map (λ s. s.now) result.0 ≡ option_map (λ s. s.now) result.1 }
{
    (one.atom_text(), other.atom_text())
}

/// `tn_guard::Value::pid` has one answer.
pub fn pid<'a, A: Allocator>(one: Value<'a, A>, other: Value<'a, A>) -> (Option<u32>, Option<u32>)
    requires { value_seen one ≡ value_seen other }
    ensures { result.0 ≡ result.1 }
{
    (one.pid(), other.pid())
}

/// `tn_guard::Value::tuple_parts` has one answer.
pub fn tuple_parts<'a, A: Allocator>(
    one: Value<'a, A>,
    other: Value<'a, A>,
) -> (Option<ListView<'a, A>>, Option<ListView<'a, A>>)
    requires { value_seen one ≡ value_seen other }
    ensures { option_map list_view_seen result.0 ≡ option_map list_view_seen result.1 }
{
    (one.tuple_parts(), other.tuple_parts())
}

/// `tn_guard::Value::list_parts` has one answer.
pub fn list_parts<'a, A: Allocator>(
    one: Value<'a, A>,
    other: Value<'a, A>,
) -> (Option<ListView<'a, A>>, Option<ListView<'a, A>>)
    requires { value_seen one ≡ value_seen other }
    ensures { option_map list_view_seen result.0 ≡ option_map list_view_seen result.1 }
{
    (one.list_parts(), other.list_parts())
}

/// `tn_guard::Value::copy_into` has one answer.
pub fn copy_into<'a, A: Allocator, B: Allocator + Copy>(
    one: Value<'a, A>,
    other: Value<'a, A>,
    alloc: B,
) -> (Result<Term<B>, AllocError>, Result<Term<B>, AllocError>)
    requires { value_seen one ≡ value_seen other }
    ensures { IfOk result.0 (λ t. IfOk result.1 (λ u. tree_of t ≡ tree_of u)) }
{
    (one.copy_into(alloc), other.copy_into(alloc))
}

/// `tn_guard::lent_values` has one answer.
pub fn lent_list<'a, A: Allocator + Copy>(
    alloc: A,
    one: &'a Vec<SharedTerm<A>, A>,
    other: &'a Vec<SharedTerm<A>, A>,
) -> (
    Result<Vec<Value<'a, A>, A>, AllocError>,
    Result<Vec<Value<'a, A>, A>, AllocError>,
)
    requires { map shared_tree one.now.items ≡ map shared_tree other.now.items }
    ensures { IfOk result.0 (λ v. IfOk result.1 (λ w. map value_seen v.items ≡ map value_seen w.items)) }
{
    let first = lent_values(alloc, one);
    let second = lent_values(alloc, other);
    (first, second)
}
