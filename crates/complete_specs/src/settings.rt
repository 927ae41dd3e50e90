// The settings of functions.
ghost use Rattle.std.specs.Prelude.{◌≡◌, OnOk, OnErr, reverse};
ghost use Rattle.std.specs.Option.{option_map};
ghost use Rattle.tn_term.specs.Views.{mfa_seen};

use std::alloc::{AllocError, Allocator};
use tn_index::{FunctionSetting, Settings};
use tn_term::Mfa;

/// `tn_index::Settings::new` has one answer.
pub fn new<S: Drop, A: Allocator + Copy>(alloc: A) -> (Settings<S, A>, Settings<S, A>)
    ensures { result.0 ≡ result.1 }
{
    (Settings::new(alloc), Settings::new(alloc))
}

/// `tn_index::Settings::set` has one answer, whatever functions are given.
pub fn set<S: Drop, A: Allocator + Copy>(
    one: &mut Settings<S, A>,
    other: &mut Settings<S, A>,
    functions: &[(Mfa<A>, bool)],
    others: &[(Mfa<A>, bool)],
    function_setting: FunctionSetting<S, A>,
    again: FunctionSetting<S, A>,
) -> (Result<(), AllocError>, Result<(), AllocError>)
    requires settings { one.old ≡ other.old }
    requires commands { function_setting ≡ again }
    ensures ok { OnOk result.0 (OnOk result.1 (one.new ≡ other.new)) }
    ensures one_err { OnErr result.0 (one.new ≡ one.old) }
    ensures other_err { OnErr result.1 (other.new ≡ other.old) }
{
    let first = one.set(functions, function_setting);
    let second = other.set(others, again);
    (first, second)
}

/// `tn_index::Settings::get` has one answer.
pub fn get<'s, S: Drop, A: Allocator + Copy>(
    one: &'s Settings<S, A>,
    other: &'s Settings<S, A>,
    function: &Mfa<A>,
    again: &Mfa<A>,
    exported: bool,
) -> (
    Option<&'s FunctionSetting<S, A>>,
    Option<&'s FunctionSetting<S, A>>,
)
    requires settings { one.now ≡ other.now }
    requires functions { mfa_seen function.now ≡ mfa_seen again.now }
    ensures { option_map (λ k. k.now) result.0 ≡ option_map (λ k. k.now) result.1 }
{
    (one.get(function, exported), other.get(again, exported))
}

/// `tn_index::Settings::commands` has one answer.
pub fn commands<'a, S: Drop, A: Allocator + Copy>(
    one: &'a Settings<S, A>,
    other: &'a Settings<S, A>,
) -> (&'a [FunctionSetting<S, A>], &'a [FunctionSetting<S, A>])
    requires { one.now ≡ other.now }
    ensures { reverse result.0.now ≡ reverse result.1.now }
{
    (one.commands(), other.commands())
}
