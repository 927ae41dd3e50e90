// What names call, and with which numbers of arguments.
ghost use Rattle.std.specs.Prelude.{◌≡◌, Some};
ghost use Rattle.std.specs.Option.{option_map};
ghost use Rattle.def_term.specs.Text.{is_among};
ghost use Rattle.def_spec.specs.Reading.{table, unsupported_names, found_in};
ghost use Rattle.tn_spec.specs.Names.{row_seen, row_of, row_in};
ghost use Rattle.tn_spec.specs.Names.{test_rows, of_lists, integer_rows, comparisons, others, actions};

use crate::func::{Action, Func};

/// What a name calls.
#[derive(Clone, Copy)]
pub enum Callee {
    Func(Func),
    AndAlso,
    OrElse,
    Action(Action),
}

/// What a name calls, and the least and the greatest number of its arguments, where there is a greatest.
#[derive(Clone, Copy)]
pub struct Row {
    pub called: Callee,
    pub least: usize,
    pub most: Option<usize>,
}

/// What is called with so many arguments.
fn row_of(called: Callee, least: usize, most: Option<usize>) -> Option<Row>
    ensures { result ≡ Some (record { called = called; least = least; most = most }) }
{
    Some(Row {
        called,
        least,
        most,
    })
}

/// A function of so many arguments.
fn function(func: Func, args: usize) -> Option<Row>
    ensures { result ≡ Some (record { called = Callee.Func func; least = args; most = Some args }) }
{
    row_of(Callee::Func(func), args, Some(args))
}

/// A test of the kind of a term.
fn test(text: &str) -> Option<Row>
    ensures { option_map row_seen result ≡ row_in test_rows text.now }
{
    match text {
        "is_atom" => function(Func::IsAtom, 1),
        "is_integer" => function(Func::IsInteger, 1),
        "is_list" => function(Func::IsList, 1),
        "is_tuple" => function(Func::IsTuple, 1),
        "is_pid" => function(Func::IsPid, 1),
        "is_number" => function(Func::IsNumber, 1),
        "is_boolean" => function(Func::IsBoolean, 1),
        "is_float" => function(Func::IsFloat, 1),
        "is_port" => function(Func::IsPort, 1),
        "is_reference" => function(Func::IsReference, 1),
        "is_map" => function(Func::IsMap, 1),
        "is_binary" => function(Func::IsBinary, 1),
        "is_bitstring" => function(Func::IsBitstring, 1),
        "is_function" => function(Func::IsFunction, 1),
        _ => None,
    }
}

/// A function of lists or tuples.
fn of_list(text: &str) -> Option<Row>
    ensures { option_map row_seen result ≡ row_in of_lists text.now }
{
    match text {
        "hd" => function(Func::Head, 1),
        "tl" => function(Func::Tail, 1),
        "length" => function(Func::Length, 1),
        "size" => function(Func::Size, 1),
        "tuple_size" => function(Func::TupleSize, 1),
        "element" => function(Func::Element, 2),
        _ => None,
    }
}

/// A function of integers.
fn of_integer(text: &str) -> Option<Row>
    ensures { option_map row_seen result ≡ row_in integer_rows text.now }
{
    match text {
        "abs" => function(Func::Absolute, 1),
        "+" => function(Func::Add, 2),
        "-" => function(Func::Subtract, 2),
        "*" => function(Func::Multiply, 2),
        "div" => function(Func::Divide, 2),
        "rem" => function(Func::Remainder, 2),
        "band" => function(Func::BitAnd, 2),
        "bor" => function(Func::BitOr, 2),
        "bxor" => function(Func::BitXor, 2),
        "bnot" => function(Func::BitNot, 1),
        _ => None,
    }
}

/// A comparison of terms.
fn comparison(text: &str) -> Option<Row>
    ensures { option_map row_seen result ≡ row_in comparisons text.now }
{
    match text {
        ">" => function(Func::Greater, 2),
        ">=" => function(Func::GreaterOrEqual, 2),
        "<" => function(Func::Less, 2),
        "=<" => function(Func::LessOrEqual, 2),
        "==" => function(Func::Equal, 2),
        "=:=" => function(Func::ExactlyEqual, 2),
        "/=" => function(Func::NotEqual, 2),
        "=/=" => function(Func::ExactlyNotEqual, 2),
        _ => None,
    }
}

/// The own pid, the node, or logic.
fn other(text: &str) -> Option<Row>
    ensures { option_map row_seen result ≡ row_in others text.now }
{
    match text {
        "self" => function(Func::OwnPid, 0),
        "node" => row_of(Callee::Func(Func::OwnNode), 0, Some(1)),
        "and" => row_of(Callee::Func(Func::AllOf), 1, None),
        "or" => row_of(Callee::Func(Func::OneOf), 1, None),
        "andalso" => row_of(Callee::AndAlso, 1, None),
        "orelse" => row_of(Callee::OrElse, 1, None),
        "xor" => function(Func::JustOneOf, 2),
        "not" => function(Func::IsFalse, 1),
        _ => None,
    }
}

/// An action of bodies.
fn action(text: &str) -> Option<Row>
    ensures { option_map row_seen result ≡ row_in actions text.now }
{
    match text {
        "message" => row_of(Callee::Action(Action::Message), 1, Some(1)),
        "return_trace" => row_of(Callee::Action(Action::ReturnTrace), 0, Some(0)),
        "exception_trace" => row_of(Callee::Action(Action::ExceptionTrace), 0, Some(0)),
        "silent" => row_of(Callee::Action(Action::Silent), 1, Some(1)),
        "enable_trace" => row_of(Callee::Action(Action::EnableTrace), 1, Some(2)),
        "disable_trace" => row_of(Callee::Action(Action::DisableTrace), 1, Some(2)),
        "trace" => row_of(Callee::Action(Action::Trace), 2, Some(3)),
        "caller" => row_of(Callee::Action(Action::Caller), 0, Some(0)),
        _ => None,
    }
}

/// What the name calls; None where it names nothing in the table.
pub fn row_named(text: &str) -> Option<Row>
    ensures { option_map row_seen result ≡ option_map row_of (found_in table text.now) }
{
    if let Some(row) = test(text) {
        return Some(row);
    }
    if let Some(row) = of_list(text) {
        return Some(row);
    }
    if let Some(row) = of_integer(text) {
        return Some(row);
    }
    if let Some(row) = comparison(text) {
        return Some(row);
    }
    if let Some(row) = other(text) {
        return Some(row);
    }
    action(text)
}

/// Whether it is the name of a function that is not supported.
pub fn is_unsupported(text: &str) -> bool
    ensures { result ≡ is_among unsupported_names text.now }
{
    matches!(
        text,
        "is_record"
            | "is_seq_trace"
            | "set_seq_token"
            | "get_seq_token"
            | "set_tcw"
            | "get_tcw"
            | "display"
            | "process_dump"
            | "caller_line"
            | "current_stacktrace"
            | "bsl"
            | "bsr"
            | "max"
            | "min"
            | "float"
            | "round"
            | "trunc"
            | "ceil"
            | "floor"
            | "map_get"
            | "map_size"
            | "is_map_key"
            | "bit_size"
            | "byte_size"
            | "binary_part"
    )
}
