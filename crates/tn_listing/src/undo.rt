// What a refused call appended is taken away.
ghost use Rattle.std.specs.Prelude.{◌≡◌, ◌≤◌, OnOk, OnErr, length, take};

use std::alloc::{AllocError, Allocator};

/// The vector as it was when it had this length, where the call was refused.
pub(crate) fn or_as_it_was<B: Allocator>(
    out: &mut Vec<u8, B>,
    len: usize,
    done: Result<(), AllocError>,
) -> Result<(), AllocError>
    requires { len ≤ length out.old.items }
    ensures same { result ≡ done }
    ensures ok { OnOk done (out.new.items ≡ out.old.items) }
    ensures err { OnErr done (out.new.items ≡ take len out.old.items) }
{
    if done.is_err() {
        out.truncate(len);
    }
    done
}
