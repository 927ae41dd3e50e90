// The text of picks of a command.
ghost use Rattle.std.specs.Prelude.{◌≡◌, ◌≢◌, ℕ, true, IfOk, IfErr, OnOk, IsErrOf};
ghost use Rattle.std.specs.Process.{exit_status};
ghost use Rattle.tn_text.specs.Watch.{watched_inner, has_failed};
ghost use Rattle.tn_run.specs.Ends.{TakesFront};
ghost use Rattle.tn_command.specs.PickTexts.{IsWithoutLineFeed, TookPicks};
ghost use Rattle.tn_command.specs.Status.{IsFailure};

use crate::last_error::LastError;
use crate::source::{Source, open};
use crate::status::FAULT;
use crate::stderr::run_fault;
use std::alloc::{Allocator, Global};
use std::io::Read;
use std::process::ExitCode;
use std::rt::Files;
use tn_notice::print_fault;
use tn_run::{RunFault, read_text};
use tn_text::Watched;

/// The text without a line feed at its end.
fn without_line_feed<A: Allocator>(mut text: Vec<u8, A>) -> Vec<u8, A>
    ensures { IsWithoutLineFeed text.items result.items }
{
    if text.last() == Some(&b'\n') {
        text.pop();
    }
    text
}

/// The text of picks that a reader holds, up to one byte more than a text may have. A line feed at its end
/// isn't part of it.
pub fn picks_over<A: Allocator, R: Read>(
    alloc: A,
    reader: &mut Watched<R>,
) -> Result<Vec<u8, A>, RunFault>
    ensures text { IfOk result (λ v. TookPicks R.remaining reader.old reader.new v.items) }
    ensures front { TakesFront (R.remaining (watched_inner reader.old)) (R.remaining (watched_inner reader.new)) }
    ensures unfailed { OnOk result (has_failed reader.new ≡ has_failed reader.old) }
    ensures read { IsErrOf result RunFault.Read → has_failed reader.new ≡ true }
    ensures memory { IsErrOf result RunFault.OutOfMemory → has_failed reader.new ≡ has_failed reader.old }
    ensures faults { IfErr result (λ e. (n : ℕ) → e ≢ RunFault.Write n) }
{
    match read_text(alloc, reader) {
        Ok(text) => Ok(without_line_feed(text)),
        Err(fault) => Err(fault),
    }
}

/// The same, with a line on standard error where it fails.
fn picks_text<E: Eprint, R: Read + Drop>(
    rt: &E,
    alloc: Global,
    reader: R,
) -> Result<Vec<u8>, ExitCode>
    ensures { IfErr result (λ status. IsFailure (exit_status status)) }
{
    let mut reader = Watched::of(LastError::of(reader));
    match picks_over(alloc, &mut reader) {
        Ok(text) => Ok(text),
        Err(fault) => {
            let (_, reason) = reader.into_inner().into_parts();
            print_fault(rt, run_fault(fault), reason);
            Err(ExitCode::from(FAULT))
        }
    }
}

/// The text of picks of a source; one that is too long is read to its first byte too many.
///
/// # Errors
///
/// The status, after a line on standard error.
pub fn picks_of<R: Input + Files + Eprint + AllocGlobal>(
    rt: &R,
    picks: Source<'_>,
) -> Result<Vec<u8>, ExitCode>
    ensures { IfErr result (λ status. IsFailure (exit_status status)) }
{
    match picks {
        Source::Input => picks_text(rt, rt.alloc(), rt.reader()),
        Source::File(path) => picks_text(rt, rt.alloc(), open(rt, path)?),
    }
}
