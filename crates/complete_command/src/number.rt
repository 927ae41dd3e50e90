// Numbers in the words of the command line.
ghost use Rattle.std.specs.Prelude.{◌≡◌};

/// `tn_command::plain_number` has one answer.
pub fn plain_number(one: &str, other: &str) -> (Option<u32>, Option<u32>)
    requires { one.now ≡ other.now }
    ensures { result.0 ≡ result.1 }
{
    let first = tn_command::plain_number(one);
    let second = tn_command::plain_number(other);
    (first, second)
}

/// `tn_command::long_number` has one answer.
pub fn long_number(one: &str, other: &str) -> (Option<u64>, Option<u64>)
    requires { one.now ≡ other.now }
    ensures { result.0 ≡ result.1 }
{
    let first = tn_command::long_number(one);
    let second = tn_command::long_number(other);
    (first, second)
}
