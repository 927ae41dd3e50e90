// Reading a whole text, and writing a whole output, each call once.
ghost use Rattle.std.specs.Prelude.{◌≡◌, ◌≢◌, ℕ, true, IfOk, IfErr, OnOk, OnErr, IsErrOf};
ghost use Rattle.tn_text.specs.Watch.{watched_inner, has_failed, is_flushed};
ghost use Rattle.tn_run.specs.Ends.{TakesFront, TookText, WroteAll, WroteFront};

use crate::fault::RunFault;
use std::alloc::Allocator;
use std::io::{Read, Write};
use tn_text::{MAX_TEXT, Watched};

/// The most bytes that are read: those of the longest text, and one more.
const FULL: usize = MAX_TEXT + 1;

/// Reads to the reader's end, or to byte `FULL`. A read that fails takes nothing.
pub fn read_text<A: Allocator, R: Read>(
    alloc: A,
    reader: &mut Watched<R>,
) -> Result<Vec<u8, A>, RunFault>
    ensures text { IfOk result (λ v. TookText R.remaining reader.old reader.new v.items) }
    ensures front { TakesFront (R.remaining (watched_inner reader.old)) (R.remaining (watched_inner reader.new)) }
    ensures unfailed { OnOk result (has_failed reader.new ≡ has_failed reader.old) }
    ensures read { IsErrOf result RunFault.Read → has_failed reader.new ≡ true }
    ensures memory { IsErrOf result RunFault.OutOfMemory → has_failed reader.new ≡ has_failed reader.old }
    ensures faults { IfErr result (λ e. (n : ℕ) → e ≢ RunFault.Write n) }
{
    let mut text = Vec::new(alloc);
    let mut chunk = [0u8; 4096];
    while text.len() < FULL {
        let room = (FULL - text.len()).min(chunk.len());
        match reader.read(&mut chunk[..room]) {
            Ok(0) => return Ok(text),
            Ok(n) => {
                if text.extend_from_slice(&chunk[..n]).is_err() {
                    return Err(RunFault::OutOfMemory);
                }
            }
            Err(_) => return Err(RunFault::Read),
        }
    }
    Ok(text)
}

/// Writes the whole output and flushes the writer. Nothing is tried again.
pub fn write_output<W: Write>(writer: &mut Watched<W>, output: &[u8]) -> Result<(), RunFault>
    ensures all { OnOk result (WroteAll W.contents writer.old writer.new output.now) }
    ensures unfailed { OnOk result (has_failed writer.new ≡ has_failed writer.old) }
    ensures flushed { OnOk result (is_flushed writer.new ≡ true) }
    ensures front { IfErr result (λ e. WroteFront W.contents writer.old writer.new output.now e) }
    ensures write { OnErr result (has_failed writer.new ≡ true) }
{
    let mut written = 0;
    while written < output.len() {
        match writer.write(&output[written..]) {
            Ok(0) => return Err(RunFault::Write { written }),
            Ok(n) => written += n,
            Err(_) => return Err(RunFault::Write { written }),
        }
    }
    if writer.flush().is_err() {
        return Err(RunFault::Write { written });
    }
    Ok(())
}
