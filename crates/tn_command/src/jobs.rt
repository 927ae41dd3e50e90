// What a command does with a script.
ghost use Rattle.std.specs.Prelude.{◌≡◌, true, IfOk, OnErr, OnOk};
ghost use Rattle.std.specs.Process.{exit_status};
ghost use Rattle.tn_run.specs.Ends.{WroteAll};
ghost use Rattle.tn_run.specs.Jobs.{Meets};
ghost use Rattle.tn_expectation.specs.Expectations.{meets_expectation};
ghost use Rattle.tn_command.specs.Flaws.{IsEndFlaw, output_bytes, script_bytes};
ghost use Rattle.tn_command.specs.PrintedJobs.{IsMetByAll, IsPrintedAs, WroteNoneOrFront, script_inner};
ghost use Rattle.tn_command.specs.Status.{IsStatus, OnFaultUntouchedOrFailed, WroteAs};
ghost use Rattle.tn_command.specs.Status.{IsStrictStatus, IsStrictJudgement, status_of};

use crate::command::Command;
use crate::judgement::judge;
use crate::last_error::LastError;
use crate::source::{Source, open};
use crate::status::{FAULT, JobEnd, job_status, judge_status, report};
use crate::stderr::NamedText;
use crate::tee::Tee;
use std::alloc::{Allocator, Global};
use std::io;
use std::io::{Error, Read, Write};
use std::process::ExitCode;
use std::rt::Files;
use tn_expectation::Expectation;
use tn_notice::{CommandFault, escape_controls, plain_name, print_fault};
use tn_run::{DirectJob, Job, transact, write_output};
use tn_text::Watched;

/// What the script of standard input is called.
pub const INPUT: &str = "script";

/// Does a job with the script that a reader holds: what the writer gained is what the status says.
pub fn perform_over<A: Allocator + Copy, J: DirectJob<A>, R: Read, W: Write>(
    alloc: A,
    job: &J,
    reader: &mut Watched<R>,
    writer: &mut Watched<W>,
) -> JobEnd<J::Outcome, J::Fault>
    ensures written { WroteAs (J.view job.now) result.status R.remaining reader.old W.contents writer.old writer.new }
    ensures failed { OnFaultUntouchedOrFailed result.status writer.old writer.new }
    ensures status { IsStatus (exit_status result.status) }
    ensures answer { exit_status result.status ≡ status_of (J.view job.now) result.answer }
    ensures done { Meets (J.view job.now) R.remaining reader.old reader.new
        W.contents writer.old writer.new result.answer }
{
    let answer = transact(alloc, job, reader, writer);
    let status = job_status(job, &answer);
    JobEnd { status, answer }
}

/// A reader of a script that keeps its text, and why it failed.
pub(crate) type Script<R, A> = Watched<LastError<Tee<R, A>>>;

/// A writer that keeps the output, and why it failed.
pub(crate) type Recorder<W> = Watched<LastError<Tee<W, Global>>>;

/// A script that is read, and what it is called.
pub(crate) struct NamedScript<'a, R, A: Allocator> {
    pub(crate) name: &'a str,
    pub(crate) reader: Script<R, A>,
}

/// A script with this name, of which nothing was read yet.
pub(crate) fn script_of<'a, R, A: Allocator>(
    alloc: A,
    name: &'a str,
    reader: R,
) -> NamedScript<'a, R, A>
    ensures { script_inner result ≡ reader }
{
    let reader = Watched::of(LastError::of(Tee::of(alloc, reader)));
    NamedScript { name, reader }
}

/// The status of a strict command line for this outcome, where another would have this status: 1 in place of 0 where
/// the outcome shows a fault of the script, and 3, after its line on standard error, where there was no memory to say
/// so.
fn strict_status<R: Eprint, A: Allocator + Copy, J: Command<A>>(
    rt: &R,
    alloc: A,
    job: &J,
    outcome: &J::Outcome,
    script: NamedText<'_>,
    status: ExitCode,
) -> ExitCode
    ensures { IsStrictStatus true (J.flaw job.now outcome.now script.entry.bytes.now)
        (exit_status status) (exit_status result) }
{
    match job.is_flawed(alloc, outcome, script) {
        Ok(flawed) => judge_status(status, !flawed),
        Err(_) if status == ExitCode::SUCCESS => report(rt, CommandFault::Memory),
        Err(_) => status,
    }
}

/// The status of a job, after a line on standard error where its answer isn't what was asked for. Where a strict
/// command line takes the outcome as a fault of the script, it is 1 in place of 0.
pub(crate) fn print_end<R: Eprint + AllocGlobal, A: Allocator + Copy, J: Command<A>, S: Drop>(
    rt: &R,
    job: &J,
    end: JobEnd<J::Outcome, J::Fault>,
    script: NamedScript<'_, S, A>,
    unwritten: Option<Error>,
    strict: bool,
) -> ExitCode
    ensures { IsStrictStatus strict (IsEndFlaw (J.flaw job.now) end (script_bytes script.entry))
        (exit_status end.status) (exit_status result) }
{
    let JobEnd { status, answer } = end;
    let NamedScript { name, reader } = script;
    let (reader, unread) = reader.into_inner().into_parts();
    let (_, bytes) = reader.into_parts();
    let plain = escape_controls(rt.alloc(), name);
    let text = NamedText {
        name: plain_name(&plain, INPUT),
        bytes: &bytes,
    };
    match answer {
        Ok(outcome) => {
            let status = if strict {
                strict_status(rt, *bytes.allocator(), job, &outcome, text, status)
            } else {
                status
            };
            job.tell_outcome(rt, outcome, text);
            status
        }
        Err(fault) => {
            print_fault(rt, job.command_fault(&fault), unread.or(unwritten));
            status
        }
    }
}

/// Why a writer failed, where it did.
pub(crate) fn write_error<W: Drop>(writer: Watched<LastError<W>>) -> Option<Error> {
    let (_, error) = writer.into_inner().into_parts();
    error
}

/// The same of a job whose output was kept, which is held against what is expected.
pub(crate) fn print_judgement<
    R: Eprint + AllocGlobal,
    A: Allocator + Copy,
    J: Command<A>,
    S: Drop,
    W: Drop,
>(
    rt: &R,
    job: &J,
    end: JobEnd<J::Outcome, J::Fault>,
    script: NamedScript<'_, S, A>,
    writer: Recorder<W>,
    expectation: &Expectation<'_>,
) -> ExitCode
    ensures { IsStrictJudgement expectation.now.strict (IsEndFlaw (J.flaw job.now) end (script_bytes script.entry))
        (exit_status end.status) (meets_expectation expectation.now (output_bytes writer)) (exit_status result) }
{
    let (tee, error) = writer.into_inner().into_parts();
    let (_, output) = tee.into_parts();
    let status = print_end(rt, job, end, script, error, expectation.strict);
    judge(rt, status, &output, expectation)
}

/// What a command reads and writes.
pub struct Streams<'a, S, W> {
    /// What the script is called.
    pub name: &'a str,
    /// The reader of the script.
    pub reader: S,
    /// The writer of the output.
    pub writer: W,
}

/// The output that a job left in memory, written to a writer where the job has an outcome.
fn write_end<A: Allocator + Copy, J: Job<A>, W: Write>(
    job: &J,
    end: JobEnd<J::Outcome, J::Fault>,
    output: &[u8],
    writer: &mut Watched<W>,
) -> JobEnd<J::Outcome, J::Fault>
    requires { exit_status end.status ≡ status_of (J.view job.now) end.answer }
    ensures status { exit_status result.status ≡ status_of (J.view job.now) result.answer }
    ensures outcome { IfOk result.answer (λ o. end.answer ≡ Ok o) }
    ensures all { OnOk result.answer (WroteAll W.contents writer.old writer.new output.now) }
    ensures front { OnErr result.answer (WroteNoneOrFront W.contents writer.old writer.new output.now end.answer) }
{
    let JobEnd { status, answer } = end;
    match answer {
        Ok(outcome) => match write_output(writer, output) {
            Ok(()) => JobEnd {
                status,
                answer: Ok(outcome),
            },
            Err(fault) => JobEnd {
                status: ExitCode::from(FAULT),
                answer: Err(job.fault_of(fault)),
            },
        },
        Err(fault) => JobEnd {
            status,
            answer: Err(fault),
        },
    }
}

/// Does a job with the script of a reader, where nothing is expected of its output, which a writer gains.
fn print_plain<
    R: Eprint + AllocGlobal,
    S: Read + Drop,
    W: Write + Drop,
    A: Allocator + Copy,
    J: Command<A> + DirectJob<A>,
>(
    rt: &R,
    alloc: A,
    job: &J,
    streams: Streams<'_, S, W>,
    expectation: &Expectation<'_>,
) -> (ExitCode, W)
    requires { IsMetByAll expectation.now }
    ensures printed { IsPrintedAs (J.view job.now) (J.flaw job.now) expectation.now (S.remaining streams.entry.reader)
        (W.contents streams.entry.writer) (W.contents result.1) (exit_status result.0) }
    ensures status { IsStatus (exit_status result.0) }
{
    let Streams {
        name,
        reader,
        writer,
    } = streams;
    let mut script = script_of(alloc, name, reader);
    let mut writer = Watched::of(LastError::of(writer));
    let end = perform_over(alloc, job, &mut script.reader, &mut writer);
    let (writer, unwritten) = writer.into_inner().into_parts();
    let status = print_end(rt, job, end, script, unwritten, expectation.strict);
    (status, writer)
}

/// The same, where the output is compared with what is expected: it is kept in memory before it is written.
fn print_with_expectation<
    R: Eprint + AllocGlobal,
    S: Read + Drop,
    W: Write + Drop,
    A: Allocator + Copy,
    J: Command<A> + DirectJob<A>,
>(
    rt: &R,
    alloc: A,
    job: &J,
    streams: Streams<'_, S, W>,
    expectation: &Expectation<'_>,
) -> (ExitCode, W)
    ensures printed { IsPrintedAs (J.view job.now) (J.flaw job.now) expectation.now (S.remaining streams.entry.reader)
        (W.contents streams.entry.writer) (W.contents result.1) (exit_status result.0) }
    ensures status { IsStatus (exit_status result.0) }
{
    let Streams {
        name,
        reader,
        writer,
    } = streams;
    let mut script = script_of(alloc, name, reader);
    let mut memory = Watched::of(LastError::of(Vec::new(rt.alloc())));
    let end = perform_over(alloc, job, &mut script.reader, &mut memory);
    let (output, lack) = memory.into_inner().into_parts();
    let mut writer = Watched::of(LastError::of(writer));
    let end = write_end(job, end, &output, &mut writer);
    let (writer, unwritten) = writer.into_inner().into_parts();
    let status = print_end(rt, job, end, script, lack.or(unwritten), expectation.strict);
    (judge(rt, status, &output, expectation), writer)
}

/// Does a job with the script that a reader holds: the writer, which is given back, has gained what the job writes, or
/// a front of that where it failed; and the status is that of the answer, of a flaw under `--strict` or of an unmet
/// expectation.
pub fn print_over<
    R: Eprint + AllocGlobal,
    S: Read + Drop,
    W: Write + Drop,
    A: Allocator + Copy,
    J: Command<A> + DirectJob<A>,
>(
    rt: &R,
    alloc: A,
    job: &J,
    streams: Streams<'_, S, W>,
    expectation: &Expectation<'_>,
) -> (ExitCode, W)
    ensures printed { IsPrintedAs (J.view job.now) (J.flaw job.now) expectation.now (S.remaining streams.entry.reader)
        (W.contents streams.entry.writer) (W.contents result.1) (exit_status result.0) }
    ensures status { IsStatus (exit_status result.0) }
{
    if expectation.is_none() {
        print_plain(rt, alloc, job, streams, expectation)
    } else {
        print_with_expectation(rt, alloc, job, streams, expectation)
    }
}

/// Does a job with the script that a reader with this name holds, and writes to standard output.
fn print_job<
    R: Print + Eprint + AllocGlobal,
    S: Read + Drop,
    A: Allocator + Copy,
    J: Command<A> + DirectJob<A>,
>(rt: &R, alloc: A, script: (&str, S), job: &J, expectation: &Expectation<'_>) -> ExitCode
    ensures { IsStatus (exit_status result) }
{
    let (name, reader) = script;
    let writer = io::writer(rt);
    let streams = Streams {
        name,
        reader,
        writer,
    };
    let (status, _) = print_over(rt, alloc, job, streams, expectation);
    status
}

/// Does a job with the script of a source in an allocator, and writes to standard output. Where something is expected
/// of the output, it is held against that.
pub fn perform<
    R: Input + Files + Print + Eprint + AllocGlobal,
    A: Allocator + Copy,
    J: Command<A> + DirectJob<A>,
>(rt: &R, alloc: A, script: Source<'_>, job: &J, expectation: &Expectation<'_>) -> ExitCode
    ensures { IsStatus (exit_status result) }
{
    match script {
        Source::Input => print_job(rt, alloc, (INPUT, rt.reader()), job, expectation),
        Source::File(path) => match open(rt, path) {
            Ok(file) => print_job(rt, alloc, (path, file), job, expectation),
            Err(status) => status,
        },
    }
}
