// What a command wrote.
ghost use Rattle.std.specs.Prelude.{◌≡◌, OnOk, OnErr, option_map};

use std::alloc::{AllocError, Global};
use tn_serve::Capture;

/// `tn_serve::Capture::new` has one answer.
pub fn new(alloc: Global) -> (Capture, Capture)
    ensures { result.0 ≡ result.1 }
{
    let first = Capture::new(alloc);
    let second = Capture::new(alloc);
    (first, second)
}

/// `tn_serve::Capture::append` has one answer, unless memory was refused.
pub fn append(
    one: &mut Capture,
    other: &mut Capture,
    bytes: &[u8],
) -> (Result<(), AllocError>, Result<(), AllocError>)
    requires { one.old ≡ other.old }
    ensures ok { OnOk result.0 (OnOk result.1 (one.new ≡ other.new)) }
    ensures err { OnErr result.0 (OnErr result.1 (one.new ≡ other.new)) }
{
    let first = one.append(bytes);
    let second = other.append(bytes);
    (first, second)
}

/// `tn_serve::Capture::into_text` has one answer.
pub fn into_text(one: Capture, other: Capture) -> (Option<Vec<u8>>, Option<Vec<u8>>)
    requires { one ≡ other }
    ensures { option_map (λ v. v.items) result.0 ≡ option_map (λ v. v.items) result.1 }
{
    let first = one.into_text();
    let second = other.into_text();
    (first, second)
}
