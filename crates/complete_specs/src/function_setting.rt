// What a function command sets, and for which functions.
ghost use Rattle.std.specs.Prelude.{◌≡◌, IfOk};
ghost use Rattle.tn_term.specs.Views.{mfa_seen};
ghost use Rattle.tn_index.specs.Views.{function_pattern_seen};

use std::alloc::{AllocError, Allocator};
use tn_index::{FunctionPattern, FunctionSetting};
use tn_term::Mfa;

/// `tn_index::FunctionPattern::copy_into` has one answer.
pub fn copy_into<A: Allocator, B: Allocator + Copy>(
    one: &FunctionPattern<A>,
    other: &FunctionPattern<A>,
    b: B,
) -> (
    Result<FunctionPattern<B>, AllocError>,
    Result<FunctionPattern<B>, AllocError>,
)
    requires { function_pattern_seen one.now ≡ function_pattern_seen other.now }
    ensures { IfOk result.0 (λ p. IfOk result.1 (λ q. function_pattern_seen p ≡ function_pattern_seen q)) }
{
    let first = one.copy_into(b);
    let second = other.copy_into(b);
    (first, second)
}

/// `tn_index::FunctionPattern::has` has one answer.
pub fn has<A: Allocator>(
    one: &FunctionPattern<A>,
    other: &FunctionPattern<A>,
    function: &Mfa<A>,
    again: &Mfa<A>,
) -> (bool, bool)
    requires covered { function_pattern_seen one.now ≡ function_pattern_seen other.now }
    requires functions { mfa_seen function.now ≡ mfa_seen again.now }
    ensures { result.0 ≡ result.1 }
{
    (one.has(function), other.has(again))
}

/// `tn_index::FunctionSetting::has_among` has one answer.
pub fn has_among<S, A: Allocator>(
    function_setting: &FunctionSetting<S, A>,
    one: &Mfa<A>,
    other: &Mfa<A>,
    exported: bool,
) -> (bool, bool)
    requires { mfa_seen one.now ≡ mfa_seen other.now }
    ensures { result.0 ≡ result.1 }
{
    (
        function_setting.has_among(one, exported),
        function_setting.has_among(other, exported),
    )
}
