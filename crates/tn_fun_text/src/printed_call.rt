// What a name with so many arguments is printed as.
ghost use Rattle.std.specs.Prelude.{◌≡◌};
ghost use Rattle.std.specs.Option.{option_map};
ghost use Rattle.def_fun.specs.FunTexts.{infix_operators, prefix_operators, operator_named};
ghost use Rattle.def_fun.specs.FunTexts.{or_call, between_or, before_or, printed_call as call_printed_as};
ghost use Rattle.tn_fun.specs.Tokens.{operator_seen};
ghost use Rattle.tn_spec.specs.Names.{position_seen};
ghost use Rattle.tn_spec.specs.Views.{dialect_of};
ghost use Rattle.tn_fun_text.specs.Calls.{printed_call_seen};

use crate::calls::may_call;
use tn_fun::Operator;
use tn_spec::{Dialect, Position};

/// What a name with so many arguments is printed as.
#[derive(Clone, Copy)]
pub enum PrintedCall {
    Between(Operator),
    Before(Operator),
    Call,
    /// No fun has such a call.
    Nothing,
}

/// The operator between two operands that has this name.
fn infix_named(name: &str) -> Option<Operator>
    ensures { option_map operator_seen result ≡ operator_named infix_operators name.now }
{
    match name {
        "orelse" => Some(Operator::OrElse),
        "andalso" => Some(Operator::AndAlso),
        "==" => Some(Operator::Equal),
        "/=" => Some(Operator::NotEqual),
        "=<" => Some(Operator::LessOrEqual),
        "<" => Some(Operator::Less),
        ">=" => Some(Operator::GreaterOrEqual),
        ">" => Some(Operator::Greater),
        "=:=" => Some(Operator::ExactlyEqual),
        "=/=" => Some(Operator::ExactlyNotEqual),
        "+" => Some(Operator::Plus),
        "-" => Some(Operator::Minus),
        "bor" => Some(Operator::BitOr),
        "bxor" => Some(Operator::BitXor),
        "or" => Some(Operator::OneOf),
        "xor" => Some(Operator::JustOneOf),
        "*" => Some(Operator::Times),
        "div" => Some(Operator::Divide),
        "rem" => Some(Operator::Remainder),
        "band" => Some(Operator::BitAnd),
        "and" => Some(Operator::AllOf),
        _ => None,
    }
}

/// The operator before one operand that has this name, but `-`.
fn prefix_named(name: &str) -> Option<Operator>
    ensures { option_map operator_seen result ≡ operator_named prefix_operators name.now }
{
    match name {
        "bnot" => Some(Operator::BitNot),
        "not" => Some(Operator::Negation),
        _ => None,
    }
}

/// A call, where a fun may call it there.
fn call_or_nothing(dialect: Dialect, part: Position, name: &str, count: usize) -> PrintedCall
    ensures { printed_call_seen result ≡ or_call (dialect_of dialect) (position_seen part) name.now count }
{
    if may_call(dialect, part, name, count) {
        PrintedCall::Call
    } else {
        PrintedCall::Nothing
    }
}

/// An operator between two operands, or else this.
fn between_or(operator: Option<Operator>, call: PrintedCall) -> PrintedCall
    ensures { printed_call_seen result ≡ between_or (option_map operator_seen operator) (printed_call_seen call) }
{
    match operator {
        Some(operator) => PrintedCall::Between(operator),
        None => call,
    }
}

/// An operator before its operand, or else this.
fn before_or(operator: Option<Operator>, call: PrintedCall) -> PrintedCall
    ensures { printed_call_seen result ≡ before_or (option_map operator_seen operator) (printed_call_seen call) }
{
    match operator {
        Some(operator) => PrintedCall::Before(operator),
        None => call,
    }
}

/// What the name with so many arguments is printed as there.
pub fn printed_call(dialect: Dialect, part: Position, name: &str, count: usize) -> PrintedCall
    ensures { printed_call_seen result ≡ call_printed_as (dialect_of dialect) (position_seen part) name.now count }
{
    let call = call_or_nothing(dialect, part, name, count);
    if count == 2 {
        between_or(infix_named(name), call)
    } else if count == 1 {
        before_or(prefix_named(name), call)
    } else {
        call
    }
}
