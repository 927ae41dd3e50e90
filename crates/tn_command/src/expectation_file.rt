// The output or the listing that is expected, in a file or in standard input.
ghost use Rattle.std.specs.Prelude.{◌≡◌, ◌+◌, ◌-◌, ◌^◌, ◌≤◌, min, length, IfErr, IfOk, IfSome, IfNone};
ghost use Rattle.std.specs.Process.{exit_status};
ghost use Rattle.tn_command.specs.Status.{IsFailure};

use crate::source::{Source, open};
use crate::status::FAULT;
use std::alloc::Allocator;
use std::io;
use std::io::Read;
use std::process::ExitCode;
use std::rt::Files;
use tn_notice::{CommandFault, print_fault};

/// All that a reader holds; None where it holds more than so many bytes, of which one byte more is read.
#[tactic(auto, using(crate::proofs::Fronts::whole_front, crate::proofs::Fronts::longer_than_front))]
fn read_within<A: Allocator, R: Read + Drop>(
    alloc: A,
    reader: R,
    most: usize,
) -> io::Result<Option<Vec<u8, A>>>
    ensures whole { IfOk result (λ o. IfSome o (λ v. IfSome (R.remaining reader) (λ bytes. v.items ≡ bytes))) }
    ensures long { IfOk result (λ o. IfNone o (IfSome (R.remaining reader) (λ bytes.
        min (most + 1) (2 ^ 64 - 1) ≤ length bytes))) }
{
    let limit = (most as u64).saturating_add(1);
    let mut front = reader.take(limit);
    let mut bytes = Vec::new(alloc);
    front.read_to_end(&mut bytes)?;
    if bytes.len() as u64 >= limit {
        return Ok(None);
    }
    Ok(Some(bytes))
}

/// All that a reader holds, which is an output or a listing that is expected.
fn expected_bytes<R: Eprint + AllocGlobal, I: Read + Drop>(
    rt: &R,
    reader: I,
    most: usize,
) -> Result<Vec<u8>, ExitCode>
    ensures { IfErr result (λ status. IsFailure (exit_status status)) }
{
    match read_within(rt.alloc(), reader, most) {
        Ok(Some(bytes)) => Ok(bytes),
        Ok(None) => {
            print_fault(rt, CommandFault::Expectation { most }, None);
            Err(ExitCode::from(FAULT))
        }
        Err(error) => {
            print_fault(rt, CommandFault::Read, Some(error));
            Err(ExitCode::from(FAULT))
        }
    }
}

/// The text that is expected, where a source is named that has it: an output, or the listing of a session. It has as
/// many bytes as an output may have at most.
///
/// # Errors
///
/// The status, after a line on standard error, as of a file that has a script.
pub fn expected_text<R: Input + Files + Eprint + AllocGlobal>(
    rt: &R,
    source: Option<Source<'_>>,
    most: usize,
) -> Result<Option<Vec<u8>>, ExitCode>
    ensures { IfErr result (λ status. IsFailure (exit_status status)) }
{
    match source {
        Some(Source::Input) => Ok(Some(expected_bytes(rt, rt.reader(), most)?)),
        Some(Source::File(path)) => Ok(Some(expected_bytes(rt, open(rt, path)?, most)?)),
        None => Ok(None),
    }
}
