// The trial of one specification.
ghost use Rattle.std.specs.Prelude.{◌≡◌};
ghost use Rattle.std.specs.Process.{exit_status};
ghost use Rattle.tn_notice.specs.NoticeViews.{notices_seen};
ghost use Rattle.tn_command.specs.Notices.{notice_of_test};
ghost use Rattle.tn_command.specs.Status.{IsStatus, OnFaultUntouchedOrFailed};
ghost use Rattle.tn_command.specs.SpecTests.{HasAnswerIfListed, MeetsSpecTest, TriedAs, spec_test_status_of};

use crate::last_error::LastError;
use crate::remarks::{print_notices, tell_spec_notes};
use crate::spec_format::test_spec_by;
use crate::status::{FAULT, JobEnd, REFUSED};
use crate::stderr::run_fault;
use std::alloc::{Allocator, Global};
use std::fmt::InlineText;
use std::io;
use std::io::{Error, Write};
use std::process::ExitCode;
use tn_formats::Format;
use tn_notice::{CommandFault, Notice, TestText, TestTextFault, print_fault, print_notice};
use tn_refusal::{Refusal, explain_term};
use tn_run::{RunFault, write_output};
use tn_spec::SpecFault;
use tn_text::{TextFault, Watched};
use tn_verdict::{SpecTestFault, SpecTestInput, answer, no_specification_text};

/// Why a trial ended before its answer was written and flushed.
#[derive(Drop)]
pub enum SpecTestRunFault<A: Allocator> {
    /// The question has no answer. Nothing was written.
    SpecTestInput(SpecTestFault<A>),
    /// The writer failed.
    Run(RunFault),
}

/// How a trial with this answer ended.
pub fn spec_test_end<A: Allocator>(
    answer: Result<(), SpecTestRunFault<A>>,
) -> JobEnd<(), SpecTestRunFault<A>>
    ensures status { exit_status result.status ≡ spec_test_status_of answer }
    ensures answer { result.answer ≡ answer }
{
    let status = match &answer {
        Ok(()) => ExitCode::SUCCESS,
        Err(SpecTestRunFault::SpecTestInput(SpecTestFault::OutOfMemory)) => ExitCode::from(FAULT),
        Err(SpecTestRunFault::SpecTestInput(_)) => ExitCode::from(REFUSED),
        Err(SpecTestRunFault::Run(_)) => ExitCode::from(FAULT),
    };
    JobEnd { status, answer }
}

/// Answers the question: what the writer gained is what the status says.
pub fn test_spec_over<A: Allocator + Copy, W: Write>(
    alloc: A,
    writer: &mut Watched<W>,
    question: &SpecTestInput<'_>,
) -> JobEnd<(), SpecTestRunFault<A>>
    ensures written { TriedAs result.status question.now W.contents writer.old writer.new result.answer }
    ensures failed { OnFaultUntouchedOrFailed result.status writer.old writer.new }
    ensures status { IsStatus (exit_status result.status) }
    ensures answer { exit_status result.status ≡ spec_test_status_of result.answer }
    ensures done { MeetsSpecTest question.now W.contents writer.old writer.new result.answer }
{
    let text = match answer(alloc, question) {
        Ok(text) => text,
        Err(fault) => return spec_test_end(Err(SpecTestRunFault::SpecTestInput(fault))),
    };
    match write_output(writer, &text) {
        Ok(()) => spec_test_end(Ok(())),
        Err(fault) => spec_test_end(Err(SpecTestRunFault::Run(fault))),
    }
}

/// The words of a fault of a match specification, which has the name of a function at most.
type FaultWords = InlineText<320>;

/// Why a text is no term, as a refusal of its token, where it is of one.
fn refusal_of(fault: TextFault) -> Option<Refusal> {
    match fault {
        TextFault::Token { at } => Some(Refusal::Token { at }),
        TextFault::TooDeep { at } => Some(Refusal::TooDeep { at }),
        TextFault::TooLarge { at } => Some(Refusal::TooLarge { at }),
        TextFault::TooLong | TextFault::OutOfMemory => None,
    }
}

/// Says on standard error where this text of the test can be fixed, and why.
fn tell_text<R: Eprint + AllocGlobal>(rt: &R, text: TestText, bytes: &[u8], fault: TextFault) {
    let line = match refusal_of(fault) {
        Some(refusal) => explain_term::<Global>(rt.alloc(), text.name(), bytes, refusal).ok(),
        None => None,
    };
    match &line {
        Some(line) => print_notice(
            rt,
            Notice::Line(str::from_utf8(line).unwrap_or(text.name())),
        ),
        None => {
            let fault = TestTextFault::NoTerm(fault);
            print_notice(rt, Notice::TestText { text, fault });
        }
    }
}

/// Says on standard error why the specification can't be read, in these words.
fn tell_specification<R: Eprint>(rt: &R, words: &str) {
    let text = TestText::Specification;
    let fault = TestTextFault::Words(words);
    print_notice(rt, Notice::TestText { text, fault });
}

/// Says on standard error that the specification can't be read, in the words of its first fault.
fn tell_first_fault<R: Eprint>(rt: &R, fault: &SpecFault<Global>) {
    let words = FaultWords::of(fault);
    tell_specification(rt, words.as_str());
}

/// Says on standard error why the specification can't be read: in the words of its first fault where there is no
/// memory for the reason.
fn tell_reason<R: Eprint + AllocGlobal>(
    rt: &R,
    question: &SpecTestInput<'_>,
    fault: &SpecFault<Global>,
) {
    let Ok(reason) = no_specification_text::<Global>(rt.alloc(), question.spec, question.dialect)
    else {
        tell_first_fault(rt, fault);
        return;
    };
    let words = str::from_utf8(&reason).unwrap_or("");
    if words.is_empty() {
        tell_first_fault(rt, fault);
    } else {
        tell_specification(rt, words);
    }
}

/// What is said of a fault of the test that needs no other words.
fn test_notice<A: Allocator>(fault: &SpecTestFault<A>) -> Option<Notice<'static>>
    ensures { notices_seen result ≡ notice_of_test fault.now }
{
    match fault {
        SpecTestFault::NoList => Some(Notice::TestText {
            text: TestText::List,
            fault: TestTextFault::NoList,
        }),
        SpecTestFault::NoCaller => Some(Notice::TestText {
            text: TestText::Caller,
            fault: TestTextFault::NoFunction,
        }),
        SpecTestFault::OutOfMemory => Some(Notice::Fault(CommandFault::Memory)),
        _ => None,
    }
}

/// Says on standard error why the question has no answer, in one line.
pub fn tell_question<R: Eprint + AllocGlobal>(
    rt: &R,
    question: &SpecTestInput<'_>,
    fault: &SpecTestFault<Global>,
) {
    match fault {
        SpecTestFault::List(fault) => tell_text(rt, TestText::List, question.list, *fault),
        SpecTestFault::Caller(fault) => {
            tell_text(rt, TestText::Caller, question.caller.unwrap_or(b""), *fault);
        }
        SpecTestFault::Text(fault) => tell_text(rt, TestText::Specification, question.spec, *fault),
        SpecTestFault::Spec { fault, .. } => tell_reason(rt, question, fault),
        _ => print_notices(rt, test_notice(fault)),
    }
}

/// The status of a test, after its notes on standard error, or why it has no answer.
pub fn tell_spec_test<R: Eprint + AllocGlobal>(
    rt: &R,
    question: &SpecTestInput<'_>,
    end: JobEnd<(), SpecTestRunFault<Global>>,
    reason: Option<Error>,
) -> ExitCode
    ensures { exit_status result ≡ exit_status end.status }
{
    let JobEnd { status, answer } = end;
    match answer {
        Ok(()) => tell_spec_notes(rt, question),
        Err(SpecTestRunFault::SpecTestInput(fault)) => tell_question(rt, question, &fault),
        Err(SpecTestRunFault::Run(fault)) => print_fault(rt, run_fault(fault), reason),
    }
    status
}

/// Answers the question on standard output, in a format where one is given, and then says its notes on standard error.
pub fn test_spec<R: Print + Eprint + AllocGlobal>(
    rt: &R,
    question: &SpecTestInput<'_>,
    format: Option<Format>,
) -> ExitCode
    ensures status { IsStatus (exit_status result) }
    ensures listed { HasAnswerIfListed question.now (exit_status result) }
{
    let mut writer = Watched::of(LastError::of(io::writer(rt)));
    let end = test_spec_by(rt.alloc(), &mut writer, question, format);
    let (_, reason) = writer.into_inner().into_parts();
    tell_spec_test(rt, question, end, reason)
}
