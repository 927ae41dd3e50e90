// The words of the command line.
ghost use Rattle.std.specs.Prelude.{◌≡◌, IfErr};
ghost use Rattle.std.specs.Process.{exit_status};
ghost use Rattle.tn_command.specs.Status.{FAULT_STATUS};

use crate::status::report;
use std::alloc::{AllocError, Global};
use std::env::FillError;
use std::process::ExitCode;
use std::rt::Env;
use tn_notice::CommandFault;

/// How many bytes a word may have at first; twice as many at each further try.
const ROOM: usize = 256;

/// The bytes of the word at a place; None past the last one.
fn word_at(rt: &impl Env, alloc: Global, place: usize) -> Result<Option<Vec<u8>>, AllocError> {
    let mut room = ROOM;
    let mut bytes = Vec::new(alloc);
    for _ in 0..usize::BITS {
        bytes.resize(room, 0)?;
        match rt.arg(place, bytes.as_mut_slice()) {
            Ok(length) => {
                bytes.truncate(length);
                return Ok(Some(bytes));
            }
            Err(FillError::NotPresent) => return Ok(None),
            Err(FillError::TooLong) => room = room.saturating_mul(2),
        }
    }
    Err(AllocError)
}

/// All words, in order.
fn words(rt: &impl Env, alloc: Global) -> Result<Vec<String>, AllocError> {
    let mut words = Vec::new(alloc);
    for place in 0..usize::MAX {
        let Some(bytes) = word_at(rt, alloc, place)? else {
            break;
        };
        words.push(String::from_utf8_lossy(alloc, &bytes)?)?;
    }
    Ok(words)
}

/// The words of the command line, the program's own name first. What is no UTF-8 in a word is replaced, so
/// that such a text of picks spells none.
///
/// # Errors
///
/// The status of a fault, after its line on standard error, where memory was refused.
pub fn arguments<R: Env + Eprint + AllocGlobal>(rt: &R) -> Result<Vec<String>, ExitCode>
    ensures { IfErr result (λ status. exit_status status ≡ FAULT_STATUS) }
{
    match words(rt, rt.alloc()) {
        Ok(words) => Ok(words),
        Err(_) => Err(report(rt, CommandFault::Memory)),
    }
}
