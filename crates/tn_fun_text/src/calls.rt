// The functions and actions that a fun may call.
ghost use Rattle.std.specs.Prelude.{◌≡◌};
ghost use Rattle.def_fun.specs.Calls.{fun_functions, fun_actions, is_function_of, is_action_of};
ghost use Rattle.def_fun.specs.Calls.{may_call as may_be_called};
ghost use Rattle.tn_spec.specs.Names.{position_seen};
ghost use Rattle.tn_spec.specs.Views.{dialect_of};

use tn_spec::{Action, Dialect, Position, is_in_bodies};

/// Whether it is a function with so many arguments.
fn is_function(name: &str, count: usize) -> bool
    ensures { result ≡ is_function_of fun_functions name.now count }
{
    match name {
        "abs" | "hd" | "tl" | "length" | "size" => count == 1,
        "is_atom" | "is_float" | "is_integer" | "is_list" | "is_number" | "is_pid" => count == 1,
        "is_port" | "is_reference" | "is_tuple" | "is_map" | "is_binary" | "is_function" => count
            == 1,
        "element" => count == 2,
        "node" => count <= 1,
        "self" => count == 0,
        _ => false,
    }
}

/// Whether it is an action with so many arguments, in bodies of that dialect.
fn is_action(dialect: Dialect, name: &str, count: usize) -> bool
    ensures { result ≡ is_action_of (dialect_of dialect) fun_actions name.now count }
{
    match name {
        "message" => count == 1,
        "return_trace" | "exception_trace" => count == 0,
        "silent" => count == 1 && is_in_bodies(dialect, Action::Silent),
        "enable_trace" => (count == 1 || count == 2) && is_in_bodies(dialect, Action::EnableTrace),
        "disable_trace" => (count == 1 || count == 2)
            && is_in_bodies(dialect, Action::DisableTrace),
        "trace" => (count == 2 || count == 3) && is_in_bodies(dialect, Action::Trace),
        "caller" => count == 0 && is_in_bodies(dialect, Action::Caller),
        _ => false,
    }
}

/// Whether a fun may call it there. Actions are in bodies alone.
pub fn may_call(dialect: Dialect, part: Position, name: &str, count: usize) -> bool
    ensures { result ≡ may_be_called (dialect_of dialect) (position_seen part) name.now count }
{
    match part {
        Position::Condition => is_function(name, count),
        Position::Body => is_function(name, count) || is_action(dialect, name, count),
    }
}
