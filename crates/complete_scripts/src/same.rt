// Comparisons of the parts of forms.
ghost use Rattle.std.specs.Prelude.{◌≡◌, map};
ghost use Rattle.tn_flags.specs.Views.{command_of};
ghost use Rattle.tn_script.specs.Views.{function_of, entry_of};

use std::alloc::Allocator;
use tn_flags::Command;
use tn_script::{Entry, Function};

/// `tn_script::same_functions` has one answer.
pub fn same_functions<A: Allocator>(
    one: &[Function<A>],
    other: &[Function<A>],
    one_again: &[Function<A>],
    other_again: &[Function<A>],
) -> (bool, bool)
    requires ones { map function_of one.now ≡ map function_of one_again.now }
    requires others { map function_of other.now ≡ map function_of other_again.now }
    ensures { result.0 ≡ result.1 }
{
    let first = tn_script::same_functions(one, other);
    let second = tn_script::same_functions(one_again, other_again);
    (first, second)
}

/// `tn_script::same_entries` has one answer.
pub fn same_entries<A: Allocator>(
    one: &[Entry<A>],
    other: &[Entry<A>],
    one_again: &[Entry<A>],
    other_again: &[Entry<A>],
) -> (bool, bool)
    requires ones { map entry_of one.now ≡ map entry_of one_again.now }
    requires others { map entry_of other.now ≡ map entry_of other_again.now }
    ensures { result.0 ≡ result.1 }
{
    let first = tn_script::same_entries(one, other);
    let second = tn_script::same_entries(one_again, other_again);
    (first, second)
}

/// `tn_script::same_commands` has one answer.
pub fn same_commands<A: Allocator>(
    one: &[Command<A>],
    other: &[Command<A>],
    one_again: &[Command<A>],
    other_again: &[Command<A>],
) -> (bool, bool)
    requires ones { map command_of one.now ≡ map command_of one_again.now }
    requires others { map command_of other.now ≡ map command_of other_again.now }
    ensures { result.0 ≡ result.1 }
{
    let first = tn_script::same_commands(one, other);
    let second = tn_script::same_commands(one_again, other_again);
    (first, second)
}
