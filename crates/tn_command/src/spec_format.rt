// The trial of one specification, whose answer is written in a format.
ghost use Rattle.std.specs.Prelude.{◌≡◌};
ghost use Rattle.std.specs.Process.{exit_status};
ghost use Rattle.tn_command.specs.Status.{IsStatus, OnFaultUntouchedOrFailed};
ghost use Rattle.tn_command.specs.SpecTests.{HasAnswerIfListed, MeetsSpecTestIn, TriedIn, spec_test_status_of};

use crate::spec_test::{SpecTestRunFault, spec_test_end, test_spec_over};
use crate::status::JobEnd;
use std::alloc::Allocator;
use std::io::Write;
use tn_formats::{Format, in_format};
use tn_run::write_output;
use tn_text::Watched;
use tn_verdict::{SpecTestFault, SpecTestInput, answer};

/// Answers the question in a format: what the writer gained is what the status says.
pub fn test_spec_in_format_over<A: Allocator + Copy, W: Write>(
    alloc: A,
    writer: &mut Watched<W>,
    question: &SpecTestInput<'_>,
    format: Format,
) -> JobEnd<(), SpecTestRunFault<A>>
    ensures written { TriedIn format result.status question.now W.contents writer.old writer.new result.answer }
    ensures failed { OnFaultUntouchedOrFailed result.status writer.old writer.new }
    ensures status { IsStatus (exit_status result.status) }
    ensures answer { exit_status result.status ≡ spec_test_status_of result.answer }
    ensures done { MeetsSpecTestIn format question.now W.contents writer.old writer.new result.answer }
{
    let text = match answer(alloc, question) {
        Ok(text) => text,
        Err(fault) => return spec_test_end(Err(SpecTestRunFault::SpecTestInput(fault))),
    };
    let Ok(output) = in_format(alloc, format, &text) else {
        let fault = SpecTestFault::OutOfMemory;
        return spec_test_end(Err(SpecTestRunFault::SpecTestInput(fault)));
    };
    match write_output(writer, &output) {
        Ok(()) => spec_test_end(Ok(())),
        Err(fault) => spec_test_end(Err(SpecTestRunFault::Run(fault))),
    }
}

/// Answers the question, in a format where one is given.
pub(crate) fn test_spec_by<A: Allocator + Copy, W: Write>(
    alloc: A,
    writer: &mut Watched<W>,
    question: &SpecTestInput<'_>,
    format: Option<Format>,
) -> JobEnd<(), SpecTestRunFault<A>>
    ensures status { IsStatus (exit_status result.status) }
    ensures listed { HasAnswerIfListed question.now (exit_status result.status) }
{
    match format {
        None => test_spec_over(alloc, writer, question),
        Some(format) => test_spec_in_format_over(alloc, writer, question, format),
    }
}
