// How many functions, processes, commands and creations forms hold.
ghost use Rattle.std.specs.Prelude.{◌≡◌, map};
ghost use Rattle.tn_flags.specs.Views.{command_of};
ghost use Rattle.tn_script.specs.Views.{form_of};

use std::alloc::Allocator;
use tn_flags::Command;
use tn_script::Form;

/// `tn_program::function_total` has one answer.
pub fn function_total<A: Allocator>(one: &[Form<A>], other: &[Form<A>]) -> (u64, u64)
    requires { map form_of one.now ≡ map form_of other.now }
    ensures { result.0 ≡ result.1 }
{
    (
        tn_program::function_total(one),
        tn_program::function_total(other),
    )
}

/// `tn_program::process_total` has one answer.
pub fn process_total<A: Allocator>(one: &[Form<A>], other: &[Form<A>]) -> (u64, u64)
    requires { map form_of one.now ≡ map form_of other.now }
    ensures { result.0 ≡ result.1 }
{
    (
        tn_program::process_total(one),
        tn_program::process_total(other),
    )
}

/// `tn_program::all_commands` has one answer.
pub fn all_commands<A: Allocator>(one: &[Form<A>], other: &[Form<A>]) -> (u64, u64)
    requires { map form_of one.now ≡ map form_of other.now }
    ensures { result.0 ≡ result.1 }
{
    (
        tn_program::all_commands(one),
        tn_program::all_commands(other),
    )
}

/// `tn_program::all_creations` has one answer.
pub fn all_creations<A: Allocator>(one: &[Form<A>], other: &[Form<A>]) -> (u64, u64)
    requires { map form_of one.now ≡ map form_of other.now }
    ensures { result.0 ≡ result.1 }
{
    (
        tn_program::all_creations(one),
        tn_program::all_creations(other),
    )
}

/// `tn_program::creation_total` has one answer.
pub fn creation_total<A: Allocator>(one: &[Command<A>], other: &[Command<A>]) -> (u64, u64)
    requires { map command_of one.now ≡ map command_of other.now }
    ensures { result.0 ≡ result.1 }
{
    (
        tn_program::creation_total(one),
        tn_program::creation_total(other),
    )
}
