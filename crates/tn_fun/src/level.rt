// How strongly operators bind.
ghost use Rattle.std.specs.Prelude.{◌≡◌};
ghost use Rattle.def_fun.specs.Operators.{operator_binding, is_infix as stands_between};
ghost use Rattle.def_fun.specs.Operators.{level_of as strength, left_level as left_strength};
ghost use Rattle.def_fun.specs.Operators.{right_level as right_strength};
ghost use Rattle.tn_fun.specs.Tokens.{operator_seen};

use crate::operator::Operator;

/// The level of an operator with its operands.
pub fn level_of(operator: Operator) -> u8
    ensures { result ≡ strength (operator_binding (operator_seen operator)) }
{
    match operator {
        Operator::OrElse => 1,
        Operator::AndAlso => 2,
        Operator::Equal
        | Operator::NotEqual
        | Operator::LessOrEqual
        | Operator::Less
        | Operator::GreaterOrEqual
        | Operator::Greater
        | Operator::ExactlyEqual
        | Operator::ExactlyNotEqual => 3,
        Operator::Plus
        | Operator::Minus
        | Operator::BitOr
        | Operator::BitXor
        | Operator::OneOf
        | Operator::JustOneOf => 4,
        Operator::Times
        | Operator::Divide
        | Operator::Remainder
        | Operator::BitAnd
        | Operator::AllOf => 5,
        Operator::BitNot | Operator::Negation => 6,
    }
}

/// The least level of its left operand.
pub fn left_level(operator: Operator) -> u8
    ensures { result ≡ left_strength (operator_binding (operator_seen operator)) }
{
    match level_of(operator) {
        level @ (1 | 2 | 3) => level + 1,
        level => level,
    }
}

/// The least level of its right operand.
pub fn right_level(operator: Operator) -> u8
    ensures { result ≡ right_strength (operator_binding (operator_seen operator)) }
{
    match level_of(operator) {
        level @ (3 | 4 | 5) => level + 1,
        level => level,
    }
}

/// Whether it may be between two operands.
pub fn is_infix(operator: Operator) -> bool
    ensures { result ≡ stands_between (operator_seen operator) }
{
    level_of(operator) < 6
}
