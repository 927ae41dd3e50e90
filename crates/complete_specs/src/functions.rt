// The functions of conditions and bodies.
ghost use Rattle.std.specs.Prelude.{◌≡◌, map};
ghost use Rattle.std.specs.Option.{option_map};
ghost use Rattle.tn_guard.specs.Views.{value_seen};

use std::alloc::Allocator;
use tn_guard::Value;
use tn_spec::Func;

/// `tn_guard::apply` has one answer.
pub fn apply<'a, A: Allocator>(
    func: Func,
    one: &[Value<'a, A>],
    other: &[Value<'a, A>],
    self_pid: u32,
) -> (Option<Value<'a, A>>, Option<Value<'a, A>>)
    requires { map value_seen one.now ≡ map value_seen other.now }
    ensures { option_map value_seen result.0 ≡ option_map value_seen result.1 }
{
    (
        tn_guard::apply(func, one, self_pid),
        tn_guard::apply(func, other, self_pid),
    )
}
