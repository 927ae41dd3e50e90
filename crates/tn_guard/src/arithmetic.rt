// Functions of integers; a result outside signed 64 bits is a fault (own).
ghost use Rattle.std.specs.Prelude.{◌≡◌, pos, ◌+ℤ◌, ◌-ℤ◌, ◌*ℤ◌, neg_ℤ};
ghost use Rattle.std.specs.Int.{w64, int_bit_and, int_bit_or, int_bit_xor};
ghost use Rattle.std.specs.Option.{option_map};
ghost use Rattle.def_term.specs.Tree.{int};
ghost use Rattle.def_spec.specs.Functions.{in_64_bits, magnitude, quotient, rest_of, of_integer};
ghost use Rattle.tn_guard.specs.Views.{value_seen, shape_seen};

use crate::shape::Shape;
use crate::value::Value;
use std::alloc::Allocator;

/// `+`
pub fn sum(a: i64, b: i64) -> Option<i64>
    ensures { option_map int result ≡ in_64_bits (a +ℤ b) }
{
    a.checked_add(b)
}

/// `-`
pub fn difference(a: i64, b: i64) -> Option<i64>
    ensures { option_map int result ≡ in_64_bits (a -ℤ b) }
{
    a.checked_sub(b)
}

/// `*`
pub fn product(a: i64, b: i64) -> Option<i64>
    ensures { option_map int result ≡ in_64_bits (a *ℤ b) }
{
    a.checked_mul(b)
}

/// `div`, toward zero.
pub fn quotient(a: i64, b: i64) -> Option<i64>
    ensures { option_map int result ≡ quotient a b }
{
    a.checked_div(b)
}

/// `rem`, with the dividend's sign.
pub fn remainder(a: i64, b: i64) -> Option<i64>
    ensures { option_map int result ≡ rest_of a b }
{
    if b == 0 {
        None
    } else {
        Some(a.wrapping_rem(b))
    }
}

/// `band`, in two's complement as the others of bits.
pub fn bits_of_both(a: i64, b: i64) -> Option<i64>
    ensures { option_map int result ≡ in_64_bits (int_bit_and w64 a b) }
{
    Some(a & b)
}

/// `bor`
pub fn bits_of_either(a: i64, b: i64) -> Option<i64>
    ensures { option_map int result ≡ in_64_bits (int_bit_or w64 a b) }
{
    Some(a | b)
}

/// `bxor`
pub fn bits_of_one(a: i64, b: i64) -> Option<i64>
    ensures { option_map int result ≡ in_64_bits (int_bit_xor w64 a b) }
{
    Some(a ^ b)
}

impl<'a, A: Allocator> Shape<'a, A> {
    /// `abs`
    pub fn magnitude(self) -> Option<Value<'a, A>>
        ensures { option_map value_seen result ≡ of_integer magnitude (shape_seen self.entry) }
    {
        match self {
            Shape::Int(a) => Value::integer(a.checked_abs()),
            _ => None,
        }
    }

    /// `bnot`
    pub fn other_bits(self) -> Option<Value<'a, A>>
        ensures { option_map value_seen result ≡ of_integer (λ a. neg_ℤ a -ℤ pos 1) (shape_seen self.entry) }
    {
        match self {
            Shape::Int(a) => Some(Value::Int(-1 - a)),
            _ => None,
        }
    }
}
