// What a command does with a script and workers.
ghost use Rattle.std.specs.Prelude.{◌≡◌};
ghost use Rattle.std.specs.Process.{exit_status};
ghost use Rattle.tn_run.specs.Answers.{live_run};
ghost use Rattle.tn_run.specs.Jobs.{Meets};
ghost use Rattle.tn_run.specs.Workers.{IsWorkerCount};
ghost use Rattle.tn_command.specs.Status.{IsStatus, OnFaultUntouchedOrFailed, WroteAs, status_of};

use crate::command::{Command, has_flaw};
use crate::jobs::{INPUT, print_end, print_judgement, script_of, write_error};
use crate::last_error::LastError;
use crate::moves_line::tell_run_refusal;
use crate::output_fault::OutputFault;
use crate::output_form::OutputForm;
use crate::remarks::{forms_notice, print_notices, tell_remarks};
use crate::source::{Source, open};
use crate::status::{JobEnd, job_status};
use crate::stderr::{NamedText, live_fault, node_notice};
use crate::tee::Tee;
use crate::workers_form::run_workers_in_form_over;
use std::alloc::Global;
use std::io;
use std::io::{Read, Write};
use std::marker::Sync;
use std::process::ExitCode;
use std::rt::Files;
use std::sync::Wait;
use std::thread::Threads;
use tn_expectation::Expectation;
use tn_listing::PicksFault;
use tn_notice::{CommandFault, NodeCommand, print_notice};
use tn_pool::Gate;
use tn_replay::text_note;
use tn_run::{
    Denial, Job, LiveFault, LiveRun, Outcome, Ran, Refusal, RefusalForm, RunFault, Workers,
    run_live,
};
use tn_text::Watched;

/// Runs the script that a reader holds by workers: what the writer gained is what the status says.
pub fn run_workers_over<T: Threads + Wait + Sync, R: Read, W: Write, G: Gate>(
    rt: &T,
    alloc: Global,
    reader: &mut Watched<R>,
    writer: &mut Watched<W>,
    workers: &Workers<'_, G>,
) -> JobEnd<Ran, LiveFault>
    requires count { IsWorkerCount workers.now.count }
    ensures written { WroteAs live_run result.status R.remaining reader.old W.contents writer.old writer.new }
    ensures failed { OnFaultUntouchedOrFailed result.status writer.old writer.new }
    ensures status { IsStatus (exit_status result.status) }
    ensures answer { exit_status result.status ≡ status_of live_run result.answer }
    ensures done { Meets live_run R.remaining reader.old reader.new W.contents writer.old writer.new result.answer }
{
    let answer = run_live(rt, alloc, reader, writer, workers);
    let status = job_status::<Global, LiveRun>(&LiveRun, &answer);
    JobEnd { status, answer }
}

/// A run by workers: in which form its output is, what that must be, and whether its note is printed, at how many
/// moves a running node does otherwise.
#[derive(Clone, Copy)]
pub struct WorkersRun<'a> {
    pub has_note: bool,
    pub form: OutputForm,
    pub expectation: &'a Expectation<'a>,
}

impl Job<Global> for WorkersRun<'_> {
    ghost use Rattle.tn_run.specs.Answers.{live_run};
    ghost use Rattle.tn_command.specs.JobForms.{job_in_form};

    type Outcome = Ran;

    type Fault = OutputFault<LiveFault>;

    ghost view = { λ job. job_in_form job.form live_run };

    ghost takes = { λ job picks. Unit {0} };

    fn picks(&self, alloc: Global) -> Result<Vec<u32>, PicksFault> {
        LiveRun.picks(alloc)
    }

    fn refusal_outcome(&self, alloc: Global, refusal: Refusal) -> (Ran, RefusalForm) {
        LiveRun.refusal_outcome(alloc, refusal)
    }

    fn succeeds(&self, outcome: &Ran) -> bool {
        LiveRun.succeeds(outcome)
    }

    fn fault_of(&self, fault: RunFault) -> OutputFault<LiveFault> {
        OutputFault::Job(LiveRun.fault_of(fault))
    }
}

impl Command<Global> for WorkersRun<'_> {
    ghost use Rattle.tn_command.specs.Flaws.{IsWorkersFlaw};
    ghost use Rattle.tn_command.specs.Notices.{live_fault_said, output_fault_said};

    ghost flaw = { λ job ran bytes flawed. IsWorkersFlaw ran bytes flawed };

    ghost said = { output_fault_said live_fault_said };

    fn command_fault(&self, fault: &OutputFault<LiveFault>) -> CommandFault {
        match fault {
            OutputFault::Job(fault) => live_fault(*fault),
            OutputFault::TooLong { bytes, most } => CommandFault::Bytes {
                bytes: *bytes,
                most: *most,
            },
            OutputFault::ListingsTooLong { most } => CommandFault::Listings { most: *most },
        }
    }

    fn tell_outcome<R: Eprint + AllocGlobal>(&self, rt: &R, ran: Ran, script: NamedText<'_>) {
        match ran.outcome {
            Outcome::Refused(refusal) => tell_run_refusal(rt, refusal, script, b""),
            Outcome::Listed if !self.has_note => {}
            Outcome::Listed => {
                print_notices(rt, forms_notice(script.bytes));
                tell_remarks(rt, script, &ran.picks);
                if let Ok(Some(note)) = text_note(rt.alloc(), script.bytes, &ran.picks) {
                    print_notice(rt, node_notice(note, NodeCommand::Journal));
                }
            }
        }
    }

    fn is_flawed(&self, alloc: Global, ran: &Ran, script: NamedText<'_>) -> Result<bool, Denial> {
        match ran.outcome {
            Outcome::Listed => has_flaw(alloc, script, &ran.picks),
            Outcome::Refused(_) => Ok(false),
        }
    }
}

/// Runs the script that a reader with this name holds by workers on these threads, and writes to standard output.
fn print_run<R: Print + Eprint + AllocGlobal, T: Threads + Wait + Sync, S: Read + Drop, G: Gate>(
    rt: &R,
    threads: &T,
    script: (&str, S),
    workers: &Workers<'_, G>,
    job: &WorkersRun<'_>,
) -> ExitCode
    requires { IsWorkerCount workers.now.count }
    ensures { IsStatus (exit_status result) }
{
    let (name, reader) = script;
    let mut script = script_of(rt.alloc(), name, reader);
    if job.expectation.is_none() {
        let mut writer = Watched::of(LastError::of(io::writer(rt)));
        let script_reader = &mut script.reader;
        let end = run_workers_in_form_over(
            threads,
            rt.alloc(),
            script_reader,
            &mut writer,
            workers,
            job.form,
        );
        return print_end(
            rt,
            job,
            end,
            script,
            write_error(writer),
            job.expectation.strict,
        );
    }
    let mut writer = Watched::of(LastError::of(Tee::of(rt.alloc(), io::writer(rt))));
    let script_reader = &mut script.reader;
    let end = run_workers_in_form_over(
        threads,
        rt.alloc(),
        script_reader,
        &mut writer,
        workers,
        job.form,
    );
    print_judgement(rt, job, end, script, writer, job.expectation)
}

/// Runs the script of a source by workers on these threads, and writes to standard output; and the note, where the job
/// has one. Where something is expected of the output, it is held against that.
pub fn run_workers<
    R: Input + Files + Print + Eprint + AllocGlobal,
    T: Threads + Wait + Sync,
    G: Gate,
>(
    rt: &R,
    threads: &T,
    script: Source<'_>,
    workers: &Workers<'_, G>,
    job: &WorkersRun<'_>,
) -> ExitCode
    requires { IsWorkerCount workers.now.count }
    ensures { IsStatus (exit_status result) }
{
    match script {
        Source::Input => print_run(rt, threads, (INPUT, rt.reader()), workers, job),
        Source::File(path) => match open(rt, path) {
            Ok(file) => print_run(rt, threads, (path, file), workers, job),
            Err(status) => status,
        },
    }
}
