// Flags, and their inheritance.
ghost use Rattle.std.specs.Prelude.{◌≡◌};
ghost use Rattle.std.specs.Option.{option_map};
ghost use Rattle.tn_term.specs.Views.{tree_of};
ghost use Rattle.tn_flags.specs.Views.{flags_of};

use std::alloc::Allocator;
use tn_flags::{Flags, flag_of, flag_of_name, inherit_link, inherit_spawn};
use tn_term::Term;

/// `tn_flags::Flags::none` has one answer.
pub fn none() -> (Flags, Flags)
    ensures { flags_of result.0 ≡ flags_of result.1 }
{
    (Flags::none(), Flags::none())
}

/// `tn_flags::Flags::join` has one answer.
pub fn join(one: Flags, other: Flags, flags: Flags) -> (Flags, Flags)
    requires { flags_of one ≡ flags_of other }
    ensures { flags_of result.0 ≡ flags_of result.1 }
{
    (one.join(flags), other.join(flags))
}

/// `tn_flags::Flags::without` has one answer.
pub fn without(one: Flags, other: Flags, flags: Flags) -> (Flags, Flags)
    requires { flags_of one ≡ flags_of other }
    ensures { flags_of result.0 ≡ flags_of result.1 }
{
    (one.without(flags), other.without(flags))
}

/// `tn_flags::Flags::has` has one answer.
pub fn has(one: Flags, other: Flags, flags: Flags) -> (bool, bool)
    requires { flags_of one ≡ flags_of other }
    ensures { result.0 ≡ result.1 }
{
    (one.has(flags), other.has(flags))
}

/// `tn_flags::Flags::same` has one answer.
pub fn same(one: Flags, other: Flags, flags: Flags) -> (bool, bool)
    requires { flags_of one ≡ flags_of other }
    ensures { result.0 ≡ result.1 }
{
    (one.same(flags), other.same(flags))
}

/// `tn_flags::flag_of_name` has one answer.
pub fn of_name(text: &str) -> (Option<Flags>, Option<Flags>)
    ensures { option_map flags_of result.0 ≡ option_map flags_of result.1 }
{
    (flag_of_name(text), flag_of_name(text))
}

/// `tn_flags::flag_of` has one answer.
pub fn of_term<A: Allocator, B: Allocator>(
    one: &Term<A>,
    other: &Term<B>,
) -> (Option<Flags>, Option<Flags>)
    requires { tree_of one.now ≡ tree_of other.now }
    ensures { option_map flags_of result.0 ≡ option_map flags_of result.1 }
{
    (flag_of(one), flag_of(other))
}

/// `tn_flags::inherit_spawn` has one answer.
pub fn spawn(parent: Flags, child: Flags) -> ((Flags, Flags), (Flags, Flags))
    ensures parent { flags_of result.0.0 ≡ flags_of result.1.0 }
    ensures child { flags_of result.0.1 ≡ flags_of result.1.1 }
{
    (inherit_spawn(parent, child), inherit_spawn(parent, child))
}

/// `tn_flags::inherit_link` has one answer.
pub fn link(linker: Flags, partner: Flags) -> ((Flags, Flags), (Flags, Flags))
    ensures linker { flags_of result.0.0 ≡ flags_of result.1.0 }
    ensures partner { flags_of result.0.1 ≡ flags_of result.1.1 }
{
    (inherit_link(linker, partner), inherit_link(linker, partner))
}
