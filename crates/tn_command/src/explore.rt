// The job of `explore`, what is said of its outcome, and how it ends.
ghost use Rattle.std.specs.Prelude.{◌≡◌};
ghost use Rattle.std.specs.Process.{exit_status};
ghost use Rattle.tn_exploration.specs.Requests.{explore_by};
ghost use Rattle.tn_command.specs.Explorations.{IsExplorationPrinted, IsExplorationStatus};
ghost use Rattle.tn_command.specs.Explorations.{search_status, status_after_search};
ghost use Rattle.tn_command.specs.JobForms.{job_within};

use crate::command::{Command, schedule_text};
use crate::jobs::{INPUT, Streams, perform_over, print_end, script_of};
use crate::last_error::LastError;
use crate::moves_line::tell_run_refusal;
use crate::remarks::{forms_notice, print_notices};
use crate::run_outline::{names_text, sessions_of};
use crate::source::{Source, open};
use crate::status::UNMET;
use crate::stderr::{NamedText, run_fault};
use crate::within_bytes::WithinBytes;
use std::alloc::Allocator;
use std::io;
use std::io::{Read, Write};
use std::process::ExitCode;
use std::rt::Files;
use tn_exploration::{ExploreOutcome, ExploreRequest};
use tn_notice::{CommandFault, Notice, escape_controls, plain_name, print_notice};
use tn_run::{Denial, RunFault};
use tn_text::Watched;

/// The status of an exploration that didn't try all states.
pub const INCOMPLETE: u8 = 4;

impl<A: Allocator + Copy> Command<A> for ExploreRequest<'_> {
    ghost use Rattle.tn_command.specs.Flaws.{IsNoFlaw};
    ghost use Rattle.tn_command.specs.Notices.{run_fault_said};

    ghost flaw = { λ request outcome bytes flawed. IsNoFlaw flawed };

    ghost said = { run_fault_said };

    fn command_fault(&self, fault: &RunFault) -> CommandFault {
        run_fault(*fault)
    }

    fn tell_outcome<R: Eprint + AllocGlobal>(
        &self,
        rt: &R,
        outcome: ExploreOutcome,
        script: NamedText<'_>,
    ) {
        match outcome {
            ExploreOutcome::Complete | ExploreOutcome::Incomplete | ExploreOutcome::Unmet => {
                print_notices(rt, forms_notice(script.bytes));
            }
            ExploreOutcome::NoSession => {
                let plain = escape_controls(rt.alloc(), self.session.unwrap_or(""));
                let name = plain_name(&plain, "of this name");
                let names = sessions_of(rt.alloc(), script.bytes);
                let sessions = names_text(&names);
                print_notice(rt, Notice::NoSession { name, sessions });
            }
            ExploreOutcome::Refused(refusal) => {
                tell_run_refusal(rt, refusal, script, schedule_text(&self.schedule));
            }
        }
    }

    fn is_flawed(
        &self,
        _alloc: A,
        _outcome: &ExploreOutcome,
        _script: NamedText<'_>,
    ) -> Result<bool, Denial> {
        Ok(false)
    }
}

/// The status of an exploration that was written, where it is another than that of an answer.
fn search_status<F>(answer: &Result<ExploreOutcome, F>) -> Option<u8>
    ensures { result ≡ search_status answer.now }
{
    match answer {
        Ok(ExploreOutcome::Incomplete) => Some(INCOMPLETE),
        Ok(ExploreOutcome::Unmet) => Some(UNMET),
        Ok(_) | Err(_) => None,
    }
}

/// The status of what ended with a status so far.
fn status_after_search(status: ExitCode, search: Option<u8>) -> ExitCode
    ensures { exit_status result ≡ status_after_search (exit_status status) search }
{
    match search {
        Some(status) => ExitCode::from(status),
        None => status,
    }
}

/// Explores all schedules of the script that a reader holds, and prints the end: the writer, which is given back, has
/// gained what the job writes, where that has at most so many bytes, or a front of it where a write failed. The
/// status is that of the answer, 1 where what is demanded of a pattern is refuted, or 4 where not all states were
/// tried.
pub fn print_exploration_over<
    R: Eprint + AllocGlobal,
    A: Allocator + Copy,
    S: Read + Drop,
    W: Write + Drop,
>(
    rt: &R,
    alloc: A,
    request: &ExploreRequest<'_>,
    most: usize,
    streams: Streams<'_, S, W>,
) -> (ExitCode, W)
    ensures printed { IsExplorationPrinted (job_within most (explore_by request.now)) (S.remaining streams.entry.reader)
        (W.contents streams.entry.writer) (W.contents result.1) (exit_status result.0) }
    ensures status { IsExplorationStatus (exit_status result.0) }
{
    let job = &WithinBytes { job: request, most };
    let Streams {
        name,
        reader,
        writer,
    } = streams;
    let mut script = script_of(alloc, name, reader);
    let mut writer = Watched::of(LastError::of(writer));
    let end = perform_over(alloc, job, &mut script.reader, &mut writer);
    let search = search_status(&end.answer);
    let (writer, unwritten) = writer.into_inner().into_parts();
    let status = print_end(rt, job, end, script, unwritten, false);
    (status_after_search(status, search), writer)
}

/// Does so with a script of this name, and writes to standard output.
fn print_exploration<R: Print + Eprint + AllocGlobal, A: Allocator + Copy, S: Read + Drop>(
    rt: &R,
    alloc: A,
    request: &ExploreRequest<'_>,
    most: usize,
    script: (&str, S),
) -> ExitCode
    ensures { IsExplorationStatus (exit_status result) }
{
    let (name, reader) = script;
    let writer = io::writer(rt);
    let streams = Streams {
        name,
        reader,
        writer,
    };
    let (status, _) = print_exploration_over(rt, alloc, request, most, streams);
    status
}

/// Explores all schedules of the script of a source in an allocator, and writes to standard output.
pub fn explore_script<R: Input + Files + Print + Eprint + AllocGlobal, A: Allocator + Copy>(
    rt: &R,
    alloc: A,
    script: Source<'_>,
    request: &ExploreRequest<'_>,
    most: usize,
) -> ExitCode
    ensures { IsExplorationStatus (exit_status result) }
{
    match script {
        Source::Input => print_exploration(rt, alloc, request, most, (INPUT, rt.reader())),
        Source::File(path) => match open(rt, path) {
            Ok(file) => print_exploration(rt, alloc, request, most, (path, file)),
            Err(status) => status,
        },
    }
}
