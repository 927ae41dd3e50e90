// Whether the session of a name is selected.
ghost use Rattle.std.specs.Prelude.{◌≡◌};

use std::alloc::Allocator;
use tn_term::Atom;

/// `tn_running_node::is_session` has one answer.
pub fn is_session<A: Allocator>(
    wanted: Option<&str>,
    one: &Atom<A>,
    other: &Atom<A>,
) -> (bool, bool)
    requires { one.now ≡ other.now }
    ensures { result.0 ≡ result.1 }
{
    (
        tn_running_node::is_session(wanted, one),
        tn_running_node::is_session(wanted, other),
    )
}
