// Operators of integers that are constants.
ghost use Rattle.std.specs.Prelude.{◌≡◌, ℤ, pos, ◌+ℤ◌, ◌-ℤ◌, ◌*ℤ◌, neg_ℤ, int_div, int_rem};
ghost use Rattle.std.specs.Int.{w64, int_bit_and, int_bit_or, int_bit_xor};
ghost use Rattle.std.specs.Option.{option_map};
ghost use Rattle.def_term.specs.Tree.{int};
ghost use Rattle.def_spec.specs.Functions.{in_64_bits, quotient, rest_of};
ghost use Rattle.def_fun.specs.Constants.{gives_any, unless_zero, integer_between, integer_before};
ghost use Rattle.tn_fun.specs.Tokens.{operator_seen};
ghost use Rattle.tn_fun_text.specs.Constants.{fun_computation_seen, AgreesWithInteger};

use tn_fun::Operator;

/// What an operator of constants gives: nothing, an integer, `true` or `false`, or an integer outside
/// of signed 64 bits.
#[derive(Clone, Copy)]
pub enum Computation {
    Nothing,
    Integer(i64),
    Truth(bool),
    TooLarge,
}

/// The integer, where it is one of 64 bits.
fn within_64_bits(value: Option<i64>) -> Computation
    ensures { (z : ℤ) → option_map int value ≡ in_64_bits z → AgreesWithInteger result z }
{
    match value {
        Some(n) => Computation::Integer(n),
        None => Computation::TooLarge,
    }
}

/// `+`
fn sum(a: i64, b: i64) -> Option<i64>
    ensures { option_map int result ≡ in_64_bits (a +ℤ b) }
{
    a.checked_add(b)
}

/// `-`
fn difference(a: i64, b: i64) -> Option<i64>
    ensures { option_map int result ≡ in_64_bits (a -ℤ b) }
{
    a.checked_sub(b)
}

/// `*`
fn product(a: i64, b: i64) -> Option<i64>
    ensures { option_map int result ≡ in_64_bits (a *ℤ b) }
{
    a.checked_mul(b)
}

/// `-` before one.
fn negative(a: i64) -> Option<i64>
    ensures { option_map int result ≡ in_64_bits (neg_ℤ a) }
{
    a.checked_neg()
}

/// `bnot`
fn other_bits(a: i64) -> Option<i64>
    ensures { option_map int result ≡ in_64_bits (neg_ℤ a -ℤ pos 1) }
{
    Some(-1 - a)
}

/// `band`, in two's complement as the others of bits.
fn bits_of_both(a: i64, b: i64) -> Option<i64>
    ensures { option_map int result ≡ in_64_bits (int_bit_and w64 a b) }
{
    Some(a & b)
}

/// `bor`
fn bits_of_either(a: i64, b: i64) -> Option<i64>
    ensures { option_map int result ≡ in_64_bits (int_bit_or w64 a b) }
{
    Some(a | b)
}

/// `bxor`
fn bits_of_one(a: i64, b: i64) -> Option<i64>
    ensures { option_map int result ≡ in_64_bits (int_bit_xor w64 a b) }
{
    Some(a ^ b)
}

/// `div`, toward zero.
fn whole_quotient(a: i64, b: i64) -> Option<i64>
    ensures { option_map int result ≡ quotient a b }
{
    a.checked_div(b)
}

/// `rem`, with the sign of the dividend.
fn whole_remainder(a: i64, b: i64) -> Option<i64>
    ensures { option_map int result ≡ rest_of a b }
{
    if b == 0 {
        None
    } else {
        Some(a.wrapping_rem(b))
    }
}

/// `div`, which gives nothing where the divisor is 0.
fn division(a: i64, b: i64) -> Computation
    ensures { fun_computation_seen result ≡ gives_any (unless_zero int_div a b) }
{
    if b == 0 {
        Computation::Nothing
    } else {
        within_64_bits(whole_quotient(a, b))
    }
}

/// `rem`, which gives nothing where the divisor is 0.
fn remainder(a: i64, b: i64) -> Computation
    ensures { fun_computation_seen result ≡ gives_any (unless_zero int_rem a b) }
{
    if b == 0 {
        Computation::Nothing
    } else {
        within_64_bits(whole_remainder(a, b))
    }
}

/// An operator between two integers.
pub fn between_integers(operator: Operator, a: i64, b: i64) -> Computation
    ensures { fun_computation_seen result ≡ gives_any (integer_between (operator_seen operator) a b) }
{
    match operator {
        Operator::Plus => within_64_bits(sum(a, b)),
        Operator::Minus => within_64_bits(difference(a, b)),
        Operator::Times => within_64_bits(product(a, b)),
        Operator::Divide => division(a, b),
        Operator::Remainder => remainder(a, b),
        Operator::BitAnd => within_64_bits(bits_of_both(a, b)),
        Operator::BitOr => within_64_bits(bits_of_either(a, b)),
        Operator::BitXor => within_64_bits(bits_of_one(a, b)),
        _ => Computation::Nothing,
    }
}

/// An operator before an integer.
pub fn before_integer(operator: Operator, a: i64) -> Computation
    ensures { fun_computation_seen result ≡ gives_any (integer_before (operator_seen operator) a) }
{
    match operator {
        Operator::Minus => within_64_bits(negative(a)),
        Operator::BitNot => within_64_bits(other_bits(a)),
        _ => Computation::Nothing,
    }
}
