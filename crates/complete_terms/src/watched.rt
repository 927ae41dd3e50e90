// Readers and writers that remember a failed call.
ghost use Rattle.std.specs.Prelude.{◌≡◌};
ghost use Rattle.tn_text.specs.Watch.{watched_inner, has_failed, is_flushed};

use tn_text::Watched;

/// `tn_text::Watched::of` has one answer.
pub fn of<T: Copy>(inner: T) -> (Watched<T>, Watched<T>)
    ensures inner { watched_inner result.0 ≡ watched_inner result.1 }
    ensures failed { has_failed result.0 ≡ has_failed result.1 }
    ensures flushed { is_flushed result.0 ≡ is_flushed result.1 }
{
    (Watched::of(inner), Watched::of(inner))
}

/// `tn_text::Watched::into_inner` has one answer.
pub fn into_inner<T>(one: Watched<T>, other: Watched<T>) -> (T, T)
    requires { watched_inner one ≡ watched_inner other }
    ensures { result.0 ≡ result.1 }
{
    (one.into_inner(), other.into_inner())
}

/// `tn_text::Watched::failed` has one answer.
pub fn failed<T>(one: &Watched<T>, other: &Watched<T>) -> (bool, bool)
    requires { has_failed one.now ≡ has_failed other.now }
    ensures { result.0 ≡ result.1 }
{
    (one.failed(), other.failed())
}
