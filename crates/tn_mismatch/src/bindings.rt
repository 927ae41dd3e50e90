// What variables met before.
ghost use Rattle.std.specs.Prelude.{◌≡◌, map};
ghost use Rattle.std.specs.Option.{option_map};
ghost use Rattle.def_spec.specs.Matching as matching;
ghost use Rattle.tn_guard.specs.Views.{value_seen};
ghost use Rattle.tn_head.specs.Views.{binding_seen};

use std::alloc::Allocator;
use tn_guard::Value;
use tn_head::Binding;

/// The value that the variable met.
pub fn value_of<'a, A: Allocator>(bindings: &[Binding<'a, A>], number: u16) -> Option<Value<'a, A>>
    ensures { option_map value_seen result ≡ matching.value_bound (map binding_seen bindings.now) number }
{
    for binding in bindings {
        if binding.number == number {
            return Some(binding.value);
        }
    }
    None
}
