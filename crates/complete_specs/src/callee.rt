// What a name calls, and where it may stand.
ghost use Rattle.std.specs.Prelude.{◌≡◌};
ghost use Rattle.std.specs.Option.{option_map};
ghost use Rattle.tn_spec.specs.Names.{row_seen};

use tn_spec::{Action, Callee, Dialect, Position, Row};

/// `tn_spec::row_named` has one answer.
pub fn row_named(one: &str, other: &str) -> (Option<Row>, Option<Row>)
    requires { one.now ≡ other.now }
    ensures { option_map row_seen result.0 ≡ option_map row_seen result.1 }
{
    (tn_spec::row_named(one), tn_spec::row_named(other))
}

/// `tn_spec::Row::takes` has one answer.
pub fn takes(row: Row, args: usize) -> (bool, bool)
    ensures { result.0 ≡ result.1 }
{
    (row.takes(args), row.takes(args))
}

/// `tn_spec::is_unsupported` has one answer.
pub fn is_unsupported(one: &str, other: &str) -> (bool, bool)
    requires { one.now ≡ other.now }
    ensures { result.0 ≡ result.1 }
{
    (tn_spec::is_unsupported(one), tn_spec::is_unsupported(other))
}

/// `tn_spec::is_in_bodies` has one answer.
pub fn is_in_bodies(dialect: Dialect, action: Action) -> (bool, bool)
    ensures { result.0 ≡ result.1 }
{
    (
        tn_spec::is_in_bodies(dialect, action),
        tn_spec::is_in_bodies(dialect, action),
    )
}

/// `tn_spec::may_stand` has one answer.
pub fn may_stand(dialect: Dialect, part: Position, called: Callee) -> (bool, bool)
    ensures { result.0 ≡ result.1 }
{
    (
        tn_spec::may_stand(dialect, part, called),
        tn_spec::may_stand(dialect, part, called),
    )
}
