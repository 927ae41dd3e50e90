// Names that are near.
ghost use Rattle.std.specs.Prelude.{◌≡◌};

/// `tn_near_name::is_near` has one answer.
pub fn is_near(one: &str, other: &str) -> (bool, bool)
    ensures { result.0 ≡ result.1 }
{
    let first = tn_near_name::is_near(one, other);
    let second = tn_near_name::is_near(one, other);
    (first, second)
}
