// Readers and writers that keep the error of their last failed call.
ghost use Rattle.std.specs.Prelude.{◌≡◌};
ghost use Rattle.tn_command.specs.Ends.{last_error_inner, last_error_of};

use std::io::Error;
use tn_command::LastError;

/// `tn_command::LastError::of` has one answer.
pub fn of<T: Copy>(inner: T) -> (LastError<T>, LastError<T>)
    ensures inner { last_error_inner result.0 ≡ last_error_inner result.1 }
    ensures error { last_error_of result.0 ≡ last_error_of result.1 }
{
    (LastError::of(inner), LastError::of(inner))
}

/// `tn_command::LastError::into_parts` has one answer.
pub fn into_parts<T>(
    one: LastError<T>,
    other: LastError<T>,
) -> ((T, Option<Error>), (T, Option<Error>))
    requires inner { last_error_inner one ≡ last_error_inner other }
    requires error { last_error_of one ≡ last_error_of other }
    ensures inner { result.0.0 ≡ result.1.0 }
    ensures error { result.0.1 ≡ result.1.1 }
{
    (one.into_parts(), other.into_parts())
}
