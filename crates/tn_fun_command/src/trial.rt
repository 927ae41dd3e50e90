// The command `spec --fun`: a trial of the specification of a fun, in the fun's words.
ghost use Rattle.std.specs.Prelude.{◌≡◌, IfErr, IfOk};
ghost use Rattle.std.specs.Process.{exit_status};
ghost use Rattle.tn_command.specs.SpecTests.{MeetsSpecTestBy, spec_test_status_of};
ghost use Rattle.tn_command.specs.Status.{IsStatus};
ghost use Rattle.tn_fun_command.specs.FunTests.{IsFunOutput, fun_test_output};
ghost use Rattle.tn_verdict.specs.SpecTestInputs.{IsNoAnswer};

use crate::command::print_fun;
use crate::notes::tell_notes;
use std::alloc::{AllocError, Allocator, Global};
use std::io;
use std::io::Write;
use std::process::ExitCode;
use tn_command::{JobEnd, LastError, SpecTestRunFault, report, spec_test_end, tell_spec_test};
use tn_formats::{Format, in_format};
use tn_fun_words::{FunWords, answer_in_words};
use tn_notice::CommandFault;
use tn_run::write_output;
use tn_text::Watched;
use tn_translation::fun_answer;
use tn_verdict::{SpecTestFault, SpecTestInput};

/// An answer in a format, where one is given, after a line for its list, where there are several.
fn output_of<A: Allocator + Copy>(
    alloc: A,
    list: &[u8],
    answer: &[u8],
    several: bool,
    format: Option<Format>,
) -> Result<Vec<u8, A>, AllocError>
    ensures { IfOk result (λ v. v.items ≡ fun_test_output several format list.now answer.now) }
{
    let mut plain = Vec::new(alloc);
    if several {
        plain.extend_from_slice(b"list ")?;
        plain.extend_from_slice(list)?;
        plain.push(b'\n')?;
    }
    plain.extend_from_slice(answer)?;
    match format {
        Some(format) => in_format(alloc, format, &plain),
        None => Ok(plain),
    }
}

/// The answer to a question in the words of a fun, in that form.
fn fun_output<A: Allocator + Copy>(
    alloc: A,
    question: &SpecTestInput<'_>,
    fun: &FunWords<'_, A>,
    several: bool,
    format: Option<Format>,
) -> Result<Vec<u8, A>, SpecTestFault<A>>
    ensures answer { IfOk result (λ v. IsFunOutput several format question.now fun.now.bytes.now v.items) }
    ensures fault { IfErr result (λ f. IsNoAnswer question.now f) }
{
    let answer = answer_in_words(alloc, question, fun)?;
    match output_of(alloc, question.list, &answer, several, format) {
        Ok(output) => Ok(output),
        Err(_) => Err(SpecTestFault::OutOfMemory),
    }
}

/// Answers the question in the words of a fun, in a format where one is given, after a line for its list where there
/// are several: what the writer gained is what the status says.
pub fn test_fun_over<A: Allocator + Copy, W: Write>(
    alloc: A,
    writer: &mut Watched<W>,
    question: &SpecTestInput<'_>,
    fun: &FunWords<'_, A>,
    several: bool,
    format: Option<Format>,
) -> JobEnd<(), SpecTestRunFault<A>>
    ensures status { IsStatus (exit_status result.status) }
    ensures answer { exit_status result.status ≡ spec_test_status_of result.answer }
    ensures done { MeetsSpecTestBy (IsFunOutput several format question.now fun.now.bytes.now) question.now
        W.contents writer.old writer.new result.answer }
{
    let output = match fun_output(alloc, question, fun, several, format) {
        Ok(output) => output,
        Err(fault) => return spec_test_end(Err(SpecTestRunFault::SpecTestInput(fault))),
    };
    match write_output(writer, &output) {
        Ok(()) => spec_test_end(Ok(())),
        Err(fault) => spec_test_end(Err(SpecTestRunFault::Run(fault))),
    }
}

/// Answers the question on standard output, and then says its notes on standard error.
fn test_list<R: Print + Eprint + AllocGlobal>(
    rt: &R,
    question: &SpecTestInput<'_>,
    fun: &FunWords<'_, Global>,
    several: bool,
    format: Option<Format>,
) -> ExitCode
    ensures { IsStatus (exit_status result) }
{
    let mut writer = Watched::of(LastError::of(io::writer(rt)));
    let end = test_fun_over(rt.alloc(), &mut writer, question, fun, several, format);
    let (_, reason) = writer.into_inner().into_parts();
    tell_spec_test(rt, question, end, reason)
}

/// Answers the question with each of these lists in place of its own, one after another. The first that has no answer
/// is the last.
fn test_lists<R: Print + Eprint + AllocGlobal>(
    rt: &R,
    question: &SpecTestInput<'_>,
    fun: &FunWords<'_, Global>,
    lists: &[&str],
    format: Option<Format>,
) -> ExitCode
    ensures { IsStatus (exit_status result) }
{
    let several = lists.len() != 1;
    for list in lists {
        let list = list.as_bytes();
        let status = test_list(
            rt,
            &SpecTestInput { list, ..*question },
            fun,
            several,
            format,
        );
        if status != ExitCode::SUCCESS {
            return status;
        }
    }
    ExitCode::SUCCESS
}

/// Tests the specification of the fun that the question has in place of one, on each of these lists, as `test_specs`
/// does, in the words of the fun, and says the notes on the fun. A fun that is refused is answered as `fun` answers it.
pub fn test_fun<R: Print + Eprint + AllocGlobal>(
    rt: &R,
    question: &SpecTestInput<'_>,
    lists: &[&str],
    format: Option<Format>,
) -> ExitCode
    ensures { IsStatus (exit_status result) }
{
    let Ok(answer) = fun_answer(rt.alloc(), question.spec, question.dialect) else {
        return report(rt, CommandFault::Memory);
    };
    if answer.refusal.is_some() {
        return print_fun(rt, question.spec, question.dialect);
    }
    let Ok(fun) = FunWords::of(rt.alloc(), question.spec) else {
        return report(rt, CommandFault::Memory);
    };
    tell_notes(rt, &fun);
    let spec = &answer.text;
    test_lists(
        rt,
        &SpecTestInput { spec, ..*question },
        &fun,
        lists,
        format,
    )
}
