// The table of functions.
ghost use Rattle.std.specs.Prelude.{◌≡◌, [], ◌∷◌, map};
ghost use Rattle.std.specs.Option.{option_map};
ghost use Rattle.def_term.specs.Tree.{int};
ghost use Rattle.def_spec.specs.Functions as table;
ghost use Rattle.def_spec.specs.Functions.{node_of};
ghost use Rattle.tn_spec.specs.Views.{func_of};
ghost use Rattle.tn_guard.specs.Calls.{integers_value, two_value};
ghost use Rattle.tn_guard.specs.Functions.{of_one_or_two, of_two_integers};
ghost use Rattle.tn_guard.specs.Views.{value_seen, shape_seen};

use crate::arithmetic::{
    bits_of_both, bits_of_either, bits_of_one, difference, product, quotient, remainder, sum,
};
use crate::logic::{all_true, some_true};
use crate::shape::Shape;
use crate::value::{AtomConst, Value};
use std::alloc::Allocator;
use tn_spec::Func;

/// The value of one function on values; None is a fault ("Match Specifications in Erlang", "Functions
/// Allowed in All Types of Match Specifications").
pub fn apply<'a, A: Allocator>(
    func: Func,
    args: &[Value<'a, A>],
    self_pid: u32,
) -> Option<Value<'a, A>>
    ensures { option_map value_seen result ≡ table.apply (func_of func) (map value_seen args.now) self_pid }
{
    match func {
        Func::OwnPid => own_pid(args, self_pid),
        Func::OwnNode => own_node(args),
        Func::AllOf => Some(Value::truth(all_true(args))),
        Func::OneOf => Some(Value::truth(some_true(args))),
        _ => of_one_or_two(func, args),
    }
}

/// `self`
fn own_pid<'a, A: Allocator>(args: &[Value<'a, A>], self_pid: u32) -> Option<Value<'a, A>>
    ensures { option_map value_seen result ≡ table.apply table.own_pid (map value_seen args.now) self_pid }
{
    if args.is_empty() {
        Some(Value::Pid(self_pid))
    } else {
        None
    }
}

/// `node`
fn own_node<'a, A: Allocator>(args: &[Value<'a, A>]) -> Option<Value<'a, A>>
    ensures { option_map value_seen result ≡ node_of (map value_seen args.now) }
{
    if args.is_empty() || (args.len() == 1 && args[0].shape().is_pid()) {
        Some(Value::AtomConst(AtomConst::Node))
    } else {
        None
    }
}

/// The value of a function of one value or two.
fn of_one_or_two<'a, A: Allocator>(func: Func, args: &[Value<'a, A>]) -> Option<Value<'a, A>>
    ensures { option_map value_seen result ≡ of_one_or_two (func_of func) (map value_seen args.now) }
{
    if args.len() == 1 {
        of_one(func, args[0].shape())
    } else if args.len() == 2 {
        of_two(func, args[0].shape(), args[1].shape())
    } else {
        None
    }
}

/// The value of a function of two integers.
fn of_integers(func: Func, a: i64, b: i64) -> Option<i64>
    ensures { option_map int result ≡ of_two_integers (func_of func) a b }
{
    match func {
        Func::Add => sum(a, b),
        Func::Subtract => difference(a, b),
        Func::Multiply => product(a, b),
        Func::Divide => quotient(a, b),
        Func::Remainder => remainder(a, b),
        Func::BitAnd => bits_of_both(a, b),
        Func::BitOr => bits_of_either(a, b),
        Func::BitXor => bits_of_one(a, b),
        _ => None,
    }
}

/// The value of a function of two values that are to be integers.
fn of_two_integers<'a, A: Allocator>(
    func: Func,
    one: Shape<'a, A>,
    other: Shape<'a, A>,
) -> Option<Value<'a, A>>
    ensures { option_map value_seen result ≡ integers_value func one.entry other.entry }
{
    match (one, other) {
        (Shape::Int(a), Shape::Int(b)) => Value::integer(of_integers(func, a, b)),
        _ => None,
    }
}

/// The value of a function of one value.
fn of_one<'a, A: Allocator>(func: Func, one: Shape<'a, A>) -> Option<Value<'a, A>>
    ensures { option_map value_seen result ≡ of_one_or_two (func_of func) (shape_seen one.entry ∷ []) }
{
    match func {
        Func::IsAtom => Some(Value::truth(one.is_atom())),
        Func::IsInteger | Func::IsNumber => Some(Value::truth(one.is_integer())),
        Func::IsList => Some(Value::truth(one.is_list())),
        Func::IsTuple => Some(Value::truth(one.is_tuple())),
        Func::IsPid => Some(Value::truth(one.is_pid())),
        Func::IsBoolean => Some(Value::truth(one.is_boolean())),
        Func::IsFloat
        | Func::IsPort
        | Func::IsReference
        | Func::IsMap
        | Func::IsBinary
        | Func::IsBitstring
        | Func::IsFunction => Some(Value::truth(false)),
        Func::Head => one.head(),
        Func::Tail => one.tail(),
        Func::Length => one.length(),
        Func::Size | Func::TupleSize => one.tuple_size(),
        Func::Absolute => one.magnitude(),
        Func::BitNot => one.other_bits(),
        Func::IsFalse => Some(Value::truth(one.is_word("false"))),
        _ => None,
    }
}

/// The value of a function of two values.
fn of_two<'a, A: Allocator>(
    func: Func,
    one: Shape<'a, A>,
    other: Shape<'a, A>,
) -> Option<Value<'a, A>>
    ensures { option_map value_seen result ≡ two_value func one.entry other.entry }
{
    match func {
        Func::Element => one.element(other),
        Func::Add
        | Func::Subtract
        | Func::Multiply
        | Func::Divide
        | Func::Remainder
        | Func::BitAnd
        | Func::BitOr
        | Func::BitXor => of_two_integers(func, one, other),
        Func::Greater => Some(Value::truth(one.order(other).is_gt())),
        Func::GreaterOrEqual => Some(Value::truth(one.order(other).is_ge())),
        Func::Less => Some(Value::truth(one.order(other).is_lt())),
        Func::LessOrEqual => Some(Value::truth(one.order(other).is_le())),
        Func::Equal | Func::ExactlyEqual => Some(Value::truth(one.same(other))),
        Func::NotEqual | Func::ExactlyNotEqual => Some(Value::truth(!one.same(other))),
        Func::JustOneOf => Some(Value::truth(one.differs(other))),
        _ => None,
    }
}
