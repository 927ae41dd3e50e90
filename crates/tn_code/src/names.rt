// The names of instructions, functions, actions and dialects, as they stand in the text of code.

use crate::instr::Instr;
use std::alloc::Allocator;
use tn_spec::{Action, Dialect, Func};

/// The name of a function, as specifications spell it.
pub fn func_name(func: Func) -> &'static str {
    match func {
        Func::IsAtom => "is_atom",
        Func::IsInteger => "is_integer",
        Func::IsList => "is_list",
        Func::IsTuple => "is_tuple",
        Func::IsPid => "is_pid",
        Func::IsNumber => "is_number",
        Func::IsBoolean => "is_boolean",
        Func::IsFloat => "is_float",
        Func::IsPort => "is_port",
        Func::IsReference => "is_reference",
        Func::IsMap => "is_map",
        Func::IsBinary => "is_binary",
        Func::IsBitstring => "is_bitstring",
        Func::IsFunction => "is_function",
        Func::Head => "hd",
        Func::Tail => "tl",
        Func::Length => "length",
        Func::Size => "size",
        Func::TupleSize => "tuple_size",
        Func::Element => "element",
        Func::Absolute => "abs",
        Func::Add => "+",
        Func::Subtract => "-",
        Func::Multiply => "*",
        Func::Divide => "div",
        Func::Remainder => "rem",
        Func::BitAnd => "band",
        Func::BitOr => "bor",
        Func::BitXor => "bxor",
        Func::BitNot => "bnot",
        Func::Greater => ">",
        Func::GreaterOrEqual => ">=",
        Func::Less => "<",
        Func::LessOrEqual => "=<",
        Func::Equal => "==",
        Func::ExactlyEqual => "=:=",
        Func::NotEqual => "/=",
        Func::ExactlyNotEqual => "=/=",
        Func::OwnPid => "self",
        Func::OwnNode => "node",
        Func::AllOf => "and",
        Func::OneOf => "or",
        Func::JustOneOf => "xor",
        Func::IsFalse => "not",
    }
}

/// The name of an action, as specifications spell it.
pub fn action_name(action: Action) -> &'static str {
    match action {
        Action::Message => "message",
        Action::ReturnTrace => "return_trace",
        Action::ExceptionTrace => "exception_trace",
        Action::Silent => "silent",
        Action::EnableTrace => "enable_trace",
        Action::DisableTrace => "disable_trace",
        Action::Trace => "trace",
        Action::Caller => "caller",
    }
}

/// The name of a dialect.
pub fn dialect_name(dialect: Dialect) -> &'static str {
    match dialect {
        Dialect::Call => "call",
        Dialect::Send => "send",
        Dialect::Recv => "receive",
    }
}

/// What an instruction is called.
pub fn instr_name<A: Allocator>(instr: &Instr<A>) -> &'static str {
    match instr {
        Instr::LoadConstant { .. } => "load_constant",
        Instr::LoadList { .. } => "load_list",
        Instr::LoadOwnPid { .. } => "load_own_pid",
        Instr::LoadCaller { .. } => "load_caller",
        Instr::TakeElement { .. } => "take_element",
        Instr::TakeRest { .. } => "take_rest",
        Instr::TestKind { .. } => "test_kind",
        Instr::TestLength { .. } => "test_length",
        Instr::TestEqual { .. } => "test_equal",
        Instr::Jump { .. } => "jump",
        Instr::Build { .. } => "build",
        Instr::Apply { .. } => "apply",
        Instr::Perform { .. } => "perform",
        Instr::ChangeFlags { .. } => "change_flags",
        Instr::EndMatch => "end_match",
        Instr::EndNoMatch => "end_no_match",
    }
}
