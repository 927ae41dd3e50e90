// Whether a command is about a call.
ghost use Rattle.std.specs.Prelude.{◌≡◌};
ghost use Rattle.tn_flags.specs.Views.{call_seen};
ghost use Rattle.tn_session.specs.Looks.{newest_seen};

use std::alloc::Allocator;
use tn_flags::Call;
use tn_session::NewestSetting;

/// `tn_running_node::concerns` has one answer.
pub fn concerns<A: Allocator + Copy>(
    one: &NewestSetting<'_, A>,
    other: &NewestSetting<'_, A>,
    call: &Call<A>,
    same_call: &Call<A>,
) -> (bool, bool)
    requires newest { newest_seen one.now ≡ newest_seen other.now }
    requires calls { call_seen call.now ≡ call_seen same_call.now }
    ensures { result.0 ≡ result.1 }
{
    (
        tn_running_node::concerns(one, call),
        tn_running_node::concerns(other, same_call),
    )
}
