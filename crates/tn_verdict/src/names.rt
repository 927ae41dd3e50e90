// The names of functions and actions, as they are written.
ghost use Rattle.std.specs.Prelude.{◌≡◌};
ghost use Rattle.def_term.specs.Text.{atom_text};
ghost use Rattle.def_trap.specs.Actions.{action_name};
ghost use Rattle.def_explain.specs.Spellings.{function_name};
ghost use Rattle.tn_spec.specs.Views.{func_of, action_of};

use tn_spec::{Action, Func};

/// The written name of a function.
#[tactic(auto, unfolding(def_term::specs::Text::is_written_bare))]
pub fn function_text(func: Func) -> &'static [u8]
    ensures { result.now ≡ atom_text (function_name (func_of func)) }
{
    match func {
        Func::IsAtom => b"is_atom",
        Func::IsInteger => b"is_integer",
        Func::IsList => b"is_list",
        Func::IsTuple => b"is_tuple",
        Func::IsPid => b"is_pid",
        Func::IsNumber => b"is_number",
        Func::IsBoolean => b"is_boolean",
        Func::IsFloat => b"is_float",
        Func::IsPort => b"is_port",
        Func::IsReference => b"is_reference",
        Func::IsMap => b"is_map",
        Func::IsBinary => b"is_binary",
        Func::IsBitstring => b"is_bitstring",
        Func::IsFunction => b"is_function",
        Func::Head => b"hd",
        Func::Tail => b"tl",
        Func::Length => b"length",
        Func::Size => b"size",
        Func::TupleSize => b"tuple_size",
        Func::Element => b"element",
        Func::Absolute => b"abs",
        Func::Add => b"'+'",
        Func::Subtract => b"'-'",
        Func::Multiply => b"'*'",
        Func::Divide => b"'div'",
        Func::Remainder => b"'rem'",
        Func::BitAnd => b"'band'",
        Func::BitOr => b"'bor'",
        Func::BitXor => b"'bxor'",
        Func::BitNot => b"'bnot'",
        Func::Greater => b"'>'",
        Func::GreaterOrEqual => b"'>='",
        Func::Less => b"'<'",
        Func::LessOrEqual => b"'=<'",
        Func::Equal => b"'=='",
        Func::ExactlyEqual => b"'=:='",
        Func::NotEqual => b"'/='",
        Func::ExactlyNotEqual => b"'=/='",
        Func::OwnPid => b"self",
        Func::OwnNode => b"node",
        Func::AllOf => b"'and'",
        Func::OneOf => b"'or'",
        Func::JustOneOf => b"'xor'",
        Func::IsFalse => b"'not'",
    }
}

/// The written name of an action.
#[tactic(auto, unfolding(def_term::specs::Text::is_written_bare))]
pub fn action_text(action: Action) -> &'static [u8]
    ensures { result.now ≡ atom_text (action_name (action_of action)) }
{
    match action {
        Action::Message => b"message",
        Action::ReturnTrace => b"return_trace",
        Action::ExceptionTrace => b"exception_trace",
        Action::Silent => b"silent",
        Action::EnableTrace => b"enable_trace",
        Action::DisableTrace => b"disable_trace",
        Action::Trace => b"trace",
        Action::Caller => b"caller",
    }
}
