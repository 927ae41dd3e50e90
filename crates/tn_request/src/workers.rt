// The run by workers that a request asks for.
ghost use Rattle.std.specs.Prelude.{◌≡◌};
ghost use Rattle.std.specs.Process.{exit_status};
ghost use Rattle.tn_run.specs.Jobs.{Meets};
ghost use Rattle.tn_run.specs.Workers.{IsWorkerCount};
ghost use Rattle.tn_command.specs.Status.{IsStatus, OnFaultUntouchedOrFailed, WroteAs, status_of};
ghost use Rattle.tn_request.specs.WorkersAsked.{AreWorkersAsked, IsWorkersRunAsked};
ghost use Rattle.tn_request.specs.WorkersAsked.{worker_count_asked, workers_job_asked};

use crate::request::WorkersRequest;
use std::alloc::Global;
use std::io::{Read, Write};
use std::marker::Sync;
use std::process::ExitCode;
use std::rt::Files;
use std::sync::Wait;
use std::thread::Threads;
use tn_command::{
    JobEnd, OutputFault, OutputForm, Start, WorkersRun, run_workers, run_workers_in_form_over,
};
use tn_expectation::Expectation;
use tn_run::{LiveFault, Ran, Workers};
use tn_text::Watched;

/// How many workers there are, from 1 to 16.
fn worker_count(request: &WorkersRequest<'_>) -> u32
    ensures asked { result ≡ worker_count_asked request.now }
    ensures count { IsWorkerCount result }
{
    request.count.max(1).min(16)
}

/// When the turns of the workers begin.
fn gate_of(request: &WorkersRequest<'_>) -> Start {
    Start::new(worker_count(request), request.spread)
}

/// The workers of a request, which may take so many bytes of memory, by this gate.
pub fn workers_of<'g>(
    request: &WorkersRequest<'_>,
    memory: u64,
    gate: &'g Start,
) -> Workers<'g, Start>
    ensures asked { AreWorkersAsked request.now result }
    ensures memory { result.memory ≡ memory }
    ensures gate { result.gate ≡ gate.entry }
    ensures count { IsWorkerCount result.count }
{
    Workers {
        count: worker_count(request),
        turns: request.turns,
        memory,
        gate,
    }
}

/// What is printed of a run by workers, in a form.
pub fn workers_job_of<'a>(
    request: &WorkersRequest<'_>,
    form: OutputForm,
    expectation: &'a Expectation<'a>,
) -> WorkersRun<'a>
    ensures asked { IsWorkersRunAsked request.now form result }
    ensures expectation { result.expectation ≡ expectation.entry }
{
    WorkersRun {
        has_note: !request.quiet,
        form,
        expectation,
    }
}

/// Runs the script that a reader holds by the workers of a request, and writes the output in a form: what the writer
/// gained is what the status says.
pub fn run_workers_request_over<T: Threads + Wait + Sync, R: Read, W: Write>(
    rt: &T,
    alloc: Global,
    request: &WorkersRequest<'_>,
    form: OutputForm,
    reader: &mut Watched<R>,
    writer: &mut Watched<W>,
) -> JobEnd<Ran, OutputFault<LiveFault>>
    ensures written { WroteAs (workers_job_asked form) result.status
        R.remaining reader.old W.contents writer.old writer.new }
    ensures failed { OnFaultUntouchedOrFailed result.status writer.old writer.new }
    ensures status { IsStatus (exit_status result.status) }
    ensures answer { exit_status result.status ≡ status_of (workers_job_asked form) result.answer }
    ensures done { Meets (workers_job_asked form) R.remaining reader.old reader.new
        W.contents writer.old writer.new result.answer }
{
    let gate = gate_of(request);
    let workers = workers_of(request, form.memory, &gate);
    run_workers_in_form_over(rt, alloc, reader, writer, &workers, form)
}

/// Runs the script of a request by its workers on these threads, and writes to standard output in a form. Where
/// something is expected of the output, it is compared with that.
pub fn run_workers_request<
    R: Input + Files + Print + Eprint + AllocGlobal,
    T: Threads + Wait + Sync,
>(
    rt: &R,
    threads: &T,
    request: &WorkersRequest<'_>,
    form: OutputForm,
    expectation: &Expectation<'_>,
) -> ExitCode
    ensures { IsStatus (exit_status result) }
{
    let gate = gate_of(request);
    let workers = workers_of(request, form.memory, &gate);
    let job = workers_job_of(request, form, expectation);
    run_workers(rt, threads, request.script, &workers, &job)
}
