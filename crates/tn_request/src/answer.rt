// What a request asks for is done.
ghost use Rattle.std.specs.Prelude.{◌≡◌};
ghost use Rattle.std.specs.Process.{exit_status};
ghost use Rattle.tn_run.specs.Jobs.{Meets};
ghost use Rattle.tn_command.specs.Explorations.{IsExplorationStatus};
ghost use Rattle.tn_command.specs.PrintedJobs.{IsPrintedAs};
ghost use Rattle.tn_command.specs.Status.{IsStatus, OnFaultUntouchedOrFailed, WroteAs, status_of};
ghost use Rattle.tn_request.specs.Explorations.{IsRequestStatus};
ghost use Rattle.tn_request.specs.TaskFlaws.{flaw_asked};
ghost use Rattle.tn_request.specs.Tasks.{job_asked};

use crate::exploration::{explore_words, refuse_pattern};
use crate::fun_text::fun_text_of;
use crate::job::{RequestOutcome, format_of, job_of};
use crate::message::{choice_of, chosen_run, pattern_of};
use crate::request::{MessageRequest, Request, RunRequest};
use crate::trial::{spec_input_of, without_full_stop};
use crate::workers::run_workers_request;
use std::alloc::Allocator;
use std::io;
use std::io::{Read, Write};
use std::marker::Sync;
use std::process::ExitCode;
use std::rt::Files;
use std::sync::Wait;
use std::thread::Threads;
use tn_command::{
    INPUT, InFormat, JobEnd, OutputFault, OutputForm, Source, Streams, WithinBytes, open,
    perform_over, print_over, test_specs,
};
use tn_expectation::Expectation;
use tn_fun_command::{print_fun, print_fun_of_spec, test_fun};
use tn_memory::WithinMemory;
use tn_run::RunFault;
use tn_text::Watched;

/// Does the job of a request, with the text that was read of its picks or its moves and the script that a reader holds,
/// and writes the output in a form: what the writer gained is what the status says.
pub fn perform_request_over<A: Allocator + Copy, R: Read, W: Write>(
    alloc: A,
    request: &RunRequest<'_>,
    read: &[u8],
    form: OutputForm,
    reader: &mut Watched<R>,
    writer: &mut Watched<W>,
) -> JobEnd<RequestOutcome, OutputFault<RunFault>>
    ensures written { WroteAs (job_asked request.now read.now form) result.status
        R.remaining reader.old W.contents writer.old writer.new }
    ensures failed { OnFaultUntouchedOrFailed result.status writer.old writer.new }
    ensures status { IsStatus (exit_status result.status) }
    ensures answer { exit_status result.status ≡ status_of (job_asked request.now read.now form) result.answer }
    ensures done { Meets (job_asked request.now read.now form) R.remaining reader.old reader.new
        W.contents writer.old writer.new result.answer }
{
    let job = &job_of(request, read);
    let format = format_of(request, form.format);
    let job = &InFormat { job, format };
    let most = form.most;
    let within = &WithinBytes { job, most };
    perform_over(alloc, within, reader, writer)
}

/// Does the job of a request, with the text that was read of its picks or its moves and the script that a reader holds,
/// and prints its end. The writer, which is given back, has gained in a form what the job writes, or a front where
/// a write failed. The status is that of the answer, of a flaw under `--strict` or of an unmet expectation.
pub fn print_request_over<R: Eprint + AllocGlobal, S: Read + Drop, W: Write + Drop>(
    rt: &R,
    request: &RunRequest<'_>,
    read: &[u8],
    form: OutputForm,
    expectation: &Expectation<'_>,
    streams: Streams<'_, S, W>,
) -> (ExitCode, W)
    ensures printed { IsPrintedAs (job_asked request.now read.now form) (flaw_asked request.now read.now)
        expectation.now (S.remaining streams.entry.reader) (W.contents streams.entry.writer) (W.contents result.1)
        (exit_status result.0) }
    ensures status { IsStatus (exit_status result.0) }
{
    let job = &job_of(request, read);
    let format = format_of(request, form.format);
    let job = &InFormat { job, format };
    let OutputForm { most, memory, .. } = form;
    let heap = WithinMemory::of(rt.alloc(), memory);
    print_over(rt, &heap, &WithinBytes { job, most }, streams, expectation)
}

/// Does so with a script of this name, and writes to standard output.
fn print_request<R: Print + Eprint + AllocGlobal, S: Read + Drop>(
    rt: &R,
    request: &RunRequest<'_>,
    read: &[u8],
    form: OutputForm,
    expectation: &Expectation<'_>,
    script: (&str, S),
) -> ExitCode
    ensures { IsStatus (exit_status result) }
{
    let (name, reader) = script;
    let writer = io::writer(rt);
    let streams = Streams {
        name,
        reader,
        writer,
    };
    let (status, _) = print_request_over(rt, request, read, form, expectation, streams);
    status
}

/// Does so with the script that the request names.
fn perform_request<R: Input + Files + Print + Eprint + AllocGlobal>(
    rt: &R,
    request: &RunRequest<'_>,
    read: &[u8],
    form: OutputForm,
    expectation: &Expectation<'_>,
) -> ExitCode
    ensures { IsStatus (exit_status result) }
{
    match request.script() {
        Source::Input => {
            let script = (INPUT, rt.reader());
            print_request(rt, request, read, form, expectation, script)
        }
        Source::File(path) => match open(rt, path) {
            Ok(file) => print_request(rt, request, read, form, expectation, (path, file)),
            Err(status) => status,
        },
    }
}

/// Explains the moves that are chosen by a message, where the words have a pattern of it, or else says why they have
/// none.
fn explain_chosen<R: Input + Files + Print + Eprint + AllocGlobal>(
    rt: &R,
    words: &MessageRequest<'_>,
    read: &[u8],
    form: OutputForm,
    expectation: &Expectation<'_>,
) -> ExitCode
    ensures { IsStatus (exit_status result) }
{
    match pattern_of(rt.alloc(), &words.message) {
        Ok(pattern) => {
            let choice = choice_of(&words.message, &pattern);
            perform_request(rt, &chosen_run(words, choice), read, form, expectation)
        }
        Err(refused) => refuse_pattern(rt, refused),
    }
}

/// Does what is asked for, with the text that was read beside the script, and writes to standard output in a form. The
/// output is compared with what is expected of it. Workers alone use the threads.
pub fn answer_request<R: Input + Files + Print + Eprint + AllocGlobal, T: Threads + Wait + Sync>(
    rt: &R,
    threads: &T,
    request: &Request<'_>,
    read: &[u8],
    form: OutputForm,
    expectation: &Expectation<'_>,
) -> ExitCode
    ensures one { IsExplorationStatus (exit_status result) }
    ensures status { IsRequestStatus request.now (exit_status result) }
{
    match request {
        Request::Run(run) => perform_request(rt, run, read, form, expectation),
        Request::Message(words) => explain_chosen(rt, words, read, form, expectation),
        Request::Workers(workers) => run_workers_request(rt, threads, workers, form, expectation),
        Request::Spec(trial) if trial.fun => test_fun(
            rt,
            &spec_input_of(trial, read),
            trial.lists,
            form.format,
        ),
        Request::Spec(trial) => test_specs(
            rt,
            &spec_input_of(trial, read),
            trial.lists,
            form.format,
        ),
        Request::Fun(fun) if fun.pretty => {
            print_fun_of_spec(rt, without_full_stop(fun_text_of(fun, read)), fun.dialect)
        }
        Request::Fun(fun) => print_fun(rt, fun_text_of(fun, read), fun.dialect),
        Request::Explore(words) => explore_words(rt, words, read, form),
    }
}
