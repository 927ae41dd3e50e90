// The functions and actions that a fun may call.
ghost use Rattle.std.specs.Prelude.{◌≡◌, ℕ, List};
ghost use Rattle.def_fun.specs.Calls.{fun_functions, fun_actions, is_function_of, is_action_of};
ghost use Rattle.def_fun.specs.Calls.{may_call as may_be_called, named_fun_call};
ghost use Rattle.tn_fun.specs.Trees.{token_name};
ghost use Rattle.tn_spec.specs.Names.{position_seen};
ghost use Rattle.tn_spec.specs.Views.{dialect_of};
ghost use Rattle.tn_translation.specs.Faults.{GivesFun};
ghost use Rattle.tn_translation.specs.Calls.{fun_call_seen};

use crate::fault::FunFault;
use tn_fun::Token;
use tn_spec::{Action, Dialect, Position, is_in_bodies, is_unsupported};

/// What a call of a fun is.
#[derive(Clone, Copy)]
pub enum FunCall {
    Object,
    Bindings,
    Function,
}

/// Whether it is a function with so many arguments.
fn is_function(name: &str, count: usize) -> bool
    ensures { result ≡ is_function_of fun_functions name.now count }
{
    match name {
        "abs" | "hd" | "tl" | "length" | "size" => count == 1,
        "is_atom" | "is_float" | "is_integer" | "is_list" | "is_number" | "is_pid" => count == 1,
        "is_port" | "is_reference" | "is_tuple" | "is_map" | "is_binary" | "is_function" => count
            == 1,
        "element" => count == 2,
        "node" => count <= 1,
        "self" => count == 0,
        _ => false,
    }
}

/// Whether it is an action with so many arguments, in bodies of that dialect.
fn is_action(dialect: Dialect, name: &str, count: usize) -> bool
    ensures { result ≡ is_action_of (dialect_of dialect) fun_actions name.now count }
{
    match name {
        "message" => count == 1,
        "return_trace" | "exception_trace" => count == 0,
        "silent" => count == 1 && is_in_bodies(dialect, Action::Silent),
        "enable_trace" => (count == 1 || count == 2) && is_in_bodies(dialect, Action::EnableTrace),
        "disable_trace" => (count == 1 || count == 2)
            && is_in_bodies(dialect, Action::DisableTrace),
        "trace" => (count == 2 || count == 3) && is_in_bodies(dialect, Action::Trace),
        "caller" => count == 0 && is_in_bodies(dialect, Action::Caller),
        _ => false,
    }
}

/// Whether a fun may call it there. Actions are in bodies alone.
fn may_call(dialect: Dialect, part: Position, name: &str, count: usize) -> bool
    ensures { result ≡ may_be_called (dialect_of dialect) (position_seen part) name.now count }
{
    match part {
        Position::Condition => is_function(name, count),
        Position::Body => is_function(name, count) || is_action(dialect, name, count),
    }
}

/// What a call with so many arguments is, by the name that the token spells.
pub fn call_of(
    dialect: Dialect,
    part: Position,
    token: Token,
    name: &str,
    count: usize,
) -> Result<FunCall, FunFault>
    ensures { (text : List ℕ) → name.now ≡ token_name text token → GivesFun fun_call_seen text result
        (named_fun_call (dialect_of dialect) (position_seen part) name.now count token.from) }
{
    if is_unsupported(name) {
        Err(FunFault::Unsupported(token))
    } else if name == "object" && count == 0 {
        Ok(FunCall::Object)
    } else if name == "bindings" && count == 0 {
        Ok(FunCall::Bindings)
    } else if may_call(dialect, part, name, count) {
        Ok(FunCall::Function)
    } else {
        Err(FunFault::NoFunction(token, count))
    }
}
