// The mark that effects ask for.
ghost use Rattle.std.specs.Prelude.{◌≡◌};
ghost use Rattle.std.specs.Option.{option_map};
ghost use Rattle.tn_session.specs.EventSteps.{asks};
ghost use Rattle.tn_session.specs.Views.{mark_kind_seen};

use std::alloc::Allocator;
use tn_machine::Effect;
use tn_session::Kind;

/// `tn_session::mark_for` has one answer.
pub fn mark_for<A: Allocator>(
    one: &[Effect<'_, A>],
    other: &[Effect<'_, A>],
) -> (Option<Kind>, Option<Kind>)
    requires { asks one.now ≡ asks other.now }
    ensures { option_map mark_kind_seen result.0 ≡ option_map mark_kind_seen result.1 }
{
    (tn_session::mark_for(one), tn_session::mark_for(other))
}
