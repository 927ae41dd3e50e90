// The names and levels of operators.
ghost use Rattle.std.specs.Prelude.{◌≡◌, ◌≤◌};
ghost use Rattle.def_fun.specs.Operators.{operator_name as name_of_operator, operator_binding, level_of as strength};
ghost use Rattle.def_fun.specs.Operators.{left_level as left_strength, right_level as right_strength};
ghost use Rattle.tn_fun.specs.Tokens.{operator_seen};

use tn_fun::Operator;

/// How an operator is written.
pub fn operator_name(operator: Operator) -> &'static [u8]
    ensures { result.now ≡ name_of_operator (operator_seen operator) }
{
    match operator {
        Operator::OrElse => b"orelse",
        Operator::AndAlso => b"andalso",
        Operator::Equal => b"==",
        Operator::NotEqual => b"/=",
        Operator::LessOrEqual => b"=<",
        Operator::Less => b"<",
        Operator::GreaterOrEqual => b">=",
        Operator::Greater => b">",
        Operator::ExactlyEqual => b"=:=",
        Operator::ExactlyNotEqual => b"=/=",
        Operator::Plus => b"+",
        Operator::Minus => b"-",
        Operator::BitOr => b"bor",
        Operator::BitXor => b"bxor",
        Operator::OneOf => b"or",
        Operator::JustOneOf => b"xor",
        Operator::Times => b"*",
        Operator::Divide => b"div",
        Operator::Remainder => b"rem",
        Operator::BitAnd => b"band",
        Operator::AllOf => b"and",
        Operator::BitNot => b"bnot",
        Operator::Negation => b"not",
    }
}

/// The level of an operator with its operands.
pub fn level_of(operator: Operator) -> u8
    ensures { result ≡ strength (operator_binding (operator_seen operator)) }
{
    match operator {
        Operator::OrElse => 1,
        Operator::AndAlso => 2,
        Operator::Equal
        | Operator::NotEqual
        | Operator::LessOrEqual
        | Operator::Less
        | Operator::GreaterOrEqual
        | Operator::Greater
        | Operator::ExactlyEqual
        | Operator::ExactlyNotEqual => 3,
        Operator::Plus
        | Operator::Minus
        | Operator::BitOr
        | Operator::BitXor
        | Operator::OneOf
        | Operator::JustOneOf => 4,
        Operator::Times
        | Operator::Divide
        | Operator::Remainder
        | Operator::BitAnd
        | Operator::AllOf => 5,
        Operator::BitNot | Operator::Negation => 6,
    }
}

/// The least level of its left operand.
pub fn left_level(operator: Operator) -> u8
    ensures { result ≡ left_strength (operator_binding (operator_seen operator)) }
{
    match level_of(operator) {
        level @ (1 | 2 | 3) => level + 1,
        level => level,
    }
}

/// The least level of its right operand.
pub fn right_level(operator: Operator) -> u8
    ensures { result ≡ right_strength (operator_binding (operator_seen operator)) }
{
    match level_of(operator) {
        level @ (3 | 4 | 5) => level + 1,
        level => level,
    }
}
