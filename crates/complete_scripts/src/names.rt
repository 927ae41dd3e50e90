// Names that are variables.
ghost use Rattle.std.specs.Prelude.{◌≡◌};

/// `tn_script::is_variable` has one answer.
pub fn is_variable(one: &str, other: &str) -> (bool, bool)
    requires { one.now ≡ other.now }
    ensures { result.0 ≡ result.1 }
{
    (tn_script::is_variable(one), tn_script::is_variable(other))
}
