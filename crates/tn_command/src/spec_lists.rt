// The trials of one specification with several lists, each answer after its list.
ghost use Rattle.std.specs.Prelude.{◌≡◌, ◌++◌, IfErr, IfOk};
ghost use Rattle.std.specs.Process.{exit_status};
ghost use Rattle.tn_command.specs.Status.{IsStatus, OnFaultUntouchedOrFailed};
ghost use Rattle.tn_verdict.specs.SpecTestInputs.{IsNoAnswer};
ghost use Rattle.tn_command.specs.SpecTests.{HeadedIn, IsHeadedAnswerIn, MeetsHeadedTest, list_head};
ghost use Rattle.tn_command.specs.SpecTests.{spec_test_status_of};
ghost use Rattle.tn_command.specs.JobForms.{text_in_format};

use crate::in_format::text_in_format;
use crate::last_error::LastError;
use crate::spec_test::{SpecTestRunFault, spec_test_end, tell_spec_test, test_spec};
use crate::status::JobEnd;
use std::alloc::{AllocError, Allocator};
use std::io;
use std::io::Write;
use std::process::ExitCode;
use tn_formats::Format;
use tn_run::write_output;
use tn_text::Watched;
use tn_verdict::{SpecTestFault, SpecTestInput, answer};

/// A line for the list of a question, and after it the answer, in a format where one is given.
fn headed_text<A: Allocator + Copy>(
    alloc: A,
    list: &[u8],
    text: &[u8],
    format: Option<Format>,
) -> Result<Vec<u8, A>, AllocError>
    ensures { IfOk result (λ v. v.items ≡ text_in_format format (list_head list.now ++ text.now)) }
{
    let mut plain = Vec::new(alloc);
    plain.extend_from_slice(b"list ")?;
    plain.extend_from_slice(list)?;
    plain.push(b'\n')?;
    plain.extend_from_slice(text)?;
    text_in_format(alloc, format, plain)
}

/// The answer to the question after a line for its list, in a format where one is given.
fn headed_answer<A: Allocator + Copy>(
    alloc: A,
    question: &SpecTestInput<'_>,
    format: Option<Format>,
) -> Result<Vec<u8, A>, SpecTestFault<A>>
    ensures answer { IfOk result (λ v. IsHeadedAnswerIn format question.now v.items) }
    ensures fault { IfErr result (λ f. IsNoAnswer question.now f) }
{
    let text = answer(alloc, question)?;
    match headed_text(alloc, question.list, &text, format) {
        Ok(output) => Ok(output),
        Err(_) => Err(SpecTestFault::OutOfMemory),
    }
}

/// Answers the question after a line for its list, in a format where one is given: what the writer gained is what the
/// status says.
pub fn test_headed_spec_over<A: Allocator + Copy, W: Write>(
    alloc: A,
    writer: &mut Watched<W>,
    question: &SpecTestInput<'_>,
    format: Option<Format>,
) -> JobEnd<(), SpecTestRunFault<A>>
    ensures written { HeadedIn format result.status question.now W.contents writer.old writer.new result.answer }
    ensures failed { OnFaultUntouchedOrFailed result.status writer.old writer.new }
    ensures status { IsStatus (exit_status result.status) }
    ensures answer { exit_status result.status ≡ spec_test_status_of result.answer }
    ensures done { MeetsHeadedTest format question.now W.contents writer.old writer.new result.answer }
{
    let output = match headed_answer(alloc, question, format) {
        Ok(output) => output,
        Err(fault) => return spec_test_end(Err(SpecTestRunFault::SpecTestInput(fault))),
    };
    match write_output(writer, &output) {
        Ok(()) => spec_test_end(Ok(())),
        Err(fault) => spec_test_end(Err(SpecTestRunFault::Run(fault))),
    }
}

/// Answers the question after a line for its list on standard output, and then says its notes on standard error.
fn test_headed_spec<R: Print + Eprint + AllocGlobal>(
    rt: &R,
    question: &SpecTestInput<'_>,
    format: Option<Format>,
) -> ExitCode
    ensures { IsStatus (exit_status result) }
{
    let mut writer = Watched::of(LastError::of(io::writer(rt)));
    let end = test_headed_spec_over(rt.alloc(), &mut writer, question, format);
    let (_, reason) = writer.into_inner().into_parts();
    tell_spec_test(rt, question, end, reason)
}

/// Answers the question with each of these lists in place of its own, one after another; where there are several, each
/// answer comes after a line for its list. The first that has no answer is the last.
pub fn test_specs<R: Print + Eprint + AllocGlobal>(
    rt: &R,
    question: &SpecTestInput<'_>,
    lists: &[&str],
    format: Option<Format>,
) -> ExitCode
    ensures { IsStatus (exit_status result) }
{
    if lists.len() == 1 {
        let list = lists[0].as_bytes();
        return test_spec(rt, &SpecTestInput { list, ..*question }, format);
    }
    for list in lists {
        let list = list.as_bytes();
        let status = test_headed_spec(rt, &SpecTestInput { list, ..*question }, format);
        if status != ExitCode::SUCCESS {
            return status;
        }
    }
    ExitCode::SUCCESS
}
