// Session commands.
ghost use Rattle.std.specs.Prelude.{◌≡◌};
ghost use Rattle.tn_flags.specs.Views.{command_of};

use std::alloc::Allocator;
use tn_flags::Command;
use tn_term::Atom;

/// `tn_flags::Command::session` has one answer.
pub fn session<'a, A: Allocator>(
    one: &'a Command<A>,
    other: &'a Command<A>,
) -> (&'a Atom<A>, &'a Atom<A>)
    requires { command_of one.now ≡ command_of other.now }
    ensures { result.0.now ≡ result.1.now }
{
    (one.session(), other.session())
}
