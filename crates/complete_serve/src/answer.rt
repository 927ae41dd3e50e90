// The lines of answers and of errors.
ghost use Rattle.std.specs.Prelude.{◌≡◌, IfOk};
ghost use Rattle.std.specs.Process.{exit_status};

use std::alloc::{AllocError, Allocator};
use std::process::ExitCode;
use tn_serve::RequestFault;

/// `tn_serve::serve_answer` has one answer.
pub fn serve_answer<A: Allocator + Copy>(
    alloc: A,
    status: u8,
    output: &[u8],
    errors: &[u8],
) -> (
    Result<Vec<u8, A>, AllocError>,
    Result<Vec<u8, A>, AllocError>,
)
    ensures { IfOk result.0 (λ x. IfOk result.1 (λ y. x.items ≡ y.items)) }
{
    let first = tn_serve::serve_answer(alloc, status, output, errors);
    let second = tn_serve::serve_answer(alloc, status, output, errors);
    (first, second)
}

/// `tn_serve::serve_error` has one answer.
pub fn serve_error(fault: RequestFault) -> (&'static [u8], &'static [u8])
    ensures { result.0.now ≡ result.1.now }
{
    let first = tn_serve::serve_error(fault);
    let second = tn_serve::serve_error(fault);
    (first, second)
}

/// `tn_serve::status_number` has one answer.
pub fn status_number(one: ExitCode, other: ExitCode) -> (u8, u8)
    requires { exit_status one ≡ exit_status other }
    ensures { result.0 ≡ result.1 }
{
    let first = tn_serve::status_number(one);
    let second = tn_serve::status_number(other);
    (first, second)
}
