// The exit status.
ghost use Rattle.std.specs.Prelude.{◌≡◌};
ghost use Rattle.std.specs.Process.{exit_status};
ghost use Rattle.tn_command.specs.Status.{FAULT_STATUS, status_after_judgement, status_of};

use std::alloc::Allocator;
use std::process::ExitCode;
use tn_notice::{CommandFault, Notice, print_notice};
use tn_run::Job;

/// The status of a run whose output isn't what is expected.
pub const UNMET: u8 = 1;

/// The status of a refusal.
pub const REFUSED: u8 = 2;

/// The status of a fault.
pub const FAULT: u8 = 3;

/// How something ended that a command does.
#[derive(Drop)]
pub struct JobEnd<O, F> {
    /// Its exit status.
    pub status: ExitCode,
    /// The answer whose status that is.
    pub answer: Result<O, F>,
}

/// The exit status of a job's answer.
pub fn job_status<A: Allocator + Copy, J: Job<A>>(
    job: &J,
    answer: &Result<J::Outcome, J::Fault>,
) -> ExitCode
    ensures { exit_status result ≡ status_of (J.view job.now) answer.now }
{
    match answer {
        Ok(outcome) => {
            if job.succeeds(outcome) {
                ExitCode::SUCCESS
            } else {
                ExitCode::from(REFUSED)
            }
        }
        Err(_) => ExitCode::from(FAULT),
    }
}

/// The exit status of what ended with a status so far, and whose output is what is expected or isn't.
pub fn judge_status(status: ExitCode, is_met: bool) -> ExitCode
    ensures { exit_status result ≡ status_after_judgement (exit_status status) is_met }
{
    if status == ExitCode::SUCCESS && !is_met {
        ExitCode::from(UNMET)
    } else {
        status
    }
}

/// The exit status of a fault, after its line on standard error.
pub fn report<R: Eprint>(rt: &R, fault: CommandFault) -> ExitCode
    ensures { exit_status result ≡ FAULT_STATUS }
{
    print_notice(rt, Notice::Fault(fault));
    ExitCode::from(FAULT)
}
