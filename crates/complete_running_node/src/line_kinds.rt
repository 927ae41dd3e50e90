// Whether lines of a session differ on a node, and whether they aren't determined.
ghost use Rattle.std.specs.Prelude.{◌≡◌};

use tn_running_node::LineKinds;

/// `tn_running_node::LineKinds::none` has one answer.
pub fn none() -> (LineKinds, LineKinds)
    ensures { result.0 ≡ result.1 }
{
    (LineKinds::none(), LineKinds::none())
}

/// `tn_running_node::LineKinds::join` has one answer.
pub fn join(one: LineKinds, other: LineKinds) -> (LineKinds, LineKinds)
    ensures { result.0 ≡ result.1 }
{
    (one.join(other), one.join(other))
}
