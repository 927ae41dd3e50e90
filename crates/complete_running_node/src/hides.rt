// Whether a process has the flag by which a node reports a step with an error.
ghost use Rattle.std.specs.Prelude.{◌≡◌};
ghost use Rattle.tn_session.specs.Looks.{look_seen};

use std::alloc::Allocator;
use tn_process::RuntimeError;
use tn_session::Look;

/// `tn_running_node::is_attempt_by` has one answer.
pub fn is_attempt_by<A: Allocator + Copy>(
    one: &Look<'_, A>,
    other: &Look<'_, A>,
    pid: u32,
    error: Option<RuntimeError>,
) -> (bool, bool)
    requires { look_seen one.now ≡ look_seen other.now }
    ensures { result.0 ≡ result.1 }
{
    (
        tn_running_node::is_attempt_by(one, pid, error),
        tn_running_node::is_attempt_by(other, pid, error),
    )
}
