// What variables are bound to.
ghost use Rattle.std.specs.Prelude.{◌≡◌};
ghost use Rattle.std.specs.Option.{option_map};
ghost use Rattle.tn_guard.specs.Views.{value_seen};
ghost use Rattle.tn_head.specs.Views.{bindings_seen};

use std::alloc::Allocator;
use tn_guard::Value;
use tn_head::Bindings;

/// `tn_head::Bindings::get` has one answer.
pub fn get<'a, A: Allocator, B: Allocator>(
    one: &Bindings<'a, A, B>,
    other: &Bindings<'a, A, B>,
    number: u16,
) -> (Option<Value<'a, A>>, Option<Value<'a, A>>)
    requires { bindings_seen one.now ≡ bindings_seen other.now }
    ensures { option_map value_seen result.0 ≡ option_map value_seen result.1 }
{
    (one.get(number), other.get(number))
}
