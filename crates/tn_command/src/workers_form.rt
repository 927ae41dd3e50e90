// A run by workers whose output is written in a form.
ghost use Rattle.std.specs.Prelude.{◌≡◌, IfErr, IfOk};
ghost use Rattle.std.specs.Process.{exit_status};
ghost use Rattle.tn_run.specs.Answers.{live_run};
ghost use Rattle.tn_run.specs.Jobs.{Meets, Prepares};
ghost use Rattle.tn_run.specs.Workers.{IsWorkerCount};
ghost use Rattle.tn_command.specs.JobForms.{IsFormFault, IsInForm, job_in_form};
ghost use Rattle.tn_command.specs.Status.{IsStatus, OnFaultUntouchedOrFailed, WroteAs, status_of};

use crate::in_format::{InFormat, text_in_format};
use crate::output_fault::OutputFault;
use crate::output_form::OutputForm;
use crate::status::{JobEnd, job_status};
use crate::within_bytes::{WithinBytes, hold};
use std::alloc::Global;
use std::io::{Read, Write};
use std::marker::Sync;
use std::sync::Wait;
use std::thread::Threads;
use tn_pool::Gate;
use tn_run::{LiveFault, LiveRun, Outcome, Ran, RunFault, Workers, prepare_live, write_output};
use tn_text::Watched;

/// The output of a listing in a form.
fn text_in_form(
    alloc: Global,
    form: OutputForm,
    plain: Vec<u8>,
) -> Result<Vec<u8>, OutputFault<LiveFault>>
    ensures output { IfOk result (λ v. IsInForm form Outcome.Listed plain.items v.items) }
    ensures fault { IfErr result (IsFormFault form Outcome.Listed plain.items) }
{
    match text_in_format(alloc, form.format, plain) {
        Ok(output) => hold(output, form.most),
        Err(_) => Err(OutputFault::Job(LiveFault::Run(RunFault::OutOfMemory))),
    }
}

/// The output of a run in a form, where it is no refusal's line.
fn run_in_form(
    alloc: Global,
    form: OutputForm,
    ran: Ran,
    plain: Vec<u8>,
) -> Result<(Ran, Vec<u8>), OutputFault<LiveFault>>
    ensures outcome { IfOk result (λ r. r.0 ≡ ran) }
    ensures output { IfOk result (λ r. IsInForm form ran.outcome plain.items r.1.items) }
    ensures fault { IfErr result (IsFormFault form ran.outcome plain.items) }
{
    match ran.outcome {
        Outcome::Refused(_) => Ok((ran, plain)),
        Outcome::Listed => match text_in_form(alloc, form, plain) {
            Ok(output) => Ok((ran, output)),
            Err(fault) => Err(fault),
        },
    }
}

/// The outcome, the picks and the output in a form of a run by workers, before any of it is written.
fn prepare_in_form<R: Read, T: Threads + Wait + Sync, G: Gate>(
    rt: &T,
    alloc: Global,
    reader: &mut Watched<R>,
    workers: &Workers<'_, G>,
    form: OutputForm,
) -> Result<(Ran, Vec<u8>), OutputFault<LiveFault>>
    requires { IsWorkerCount workers.now.count }
    ensures { Prepares (job_in_form form live_run) R.remaining reader.old reader.new result }
{
    match prepare_live(rt, alloc, reader, workers) {
        Ok((ran, output)) => run_in_form(alloc, form, ran, output),
        Err(fault) => Err(OutputFault::Job(fault)),
    }
}

/// Does so, and writes the output.
fn run_live_in_form<R: Read, W: Write, T: Threads + Wait + Sync, G: Gate>(
    rt: &T,
    alloc: Global,
    reader: &mut Watched<R>,
    writer: &mut Watched<W>,
    workers: &Workers<'_, G>,
    form: OutputForm,
) -> Result<Ran, OutputFault<LiveFault>>
    requires { IsWorkerCount workers.now.count }
    ensures { Meets (job_in_form form live_run) R.remaining reader.old reader.new
        W.contents writer.old writer.new result }
{
    let (ran, output) = prepare_in_form(rt, alloc, reader, workers, form)?;
    match write_output(writer, &output) {
        Ok(()) => Ok(ran),
        Err(fault) => Err(OutputFault::Job(LiveFault::Run(fault))),
    }
}

/// Runs the script that a reader holds by workers, and writes the output in a form: what the writer gained is what
/// the status says. Where the output has more bytes than the form has room for, nothing is written.
pub fn run_workers_in_form_over<R: Read, W: Write, T: Threads + Wait + Sync, G: Gate>(
    rt: &T,
    alloc: Global,
    reader: &mut Watched<R>,
    writer: &mut Watched<W>,
    workers: &Workers<'_, G>,
    form: OutputForm,
) -> JobEnd<Ran, OutputFault<LiveFault>>
    requires count { IsWorkerCount workers.now.count }
    ensures written { WroteAs (job_in_form form live_run) result.status
        R.remaining reader.old W.contents writer.old writer.new }
    ensures failed { OnFaultUntouchedOrFailed result.status writer.old writer.new }
    ensures status { IsStatus (exit_status result.status) }
    ensures answer { exit_status result.status ≡ status_of (job_in_form form live_run) result.answer }
    ensures done { Meets (job_in_form form live_run) R.remaining reader.old reader.new
        W.contents writer.old writer.new result.answer }
{
    let answer = run_live_in_form(rt, alloc, reader, writer, workers, form);
    let OutputForm { format, most, .. } = form;
    let job = &InFormat {
        job: &LiveRun,
        format,
    };
    let job = &WithinBytes { job, most };
    let status = job_status::<Global, WithinBytes<'_, InFormat<'_, LiveRun>>>(job, &answer);
    JobEnd { status, answer }
}
