// What an output is held against.
ghost use Rattle.std.specs.Prelude.{◌≡◌};
ghost use Rattle.std.specs.Process.{exit_status};
ghost use Rattle.tn_expectation.specs.Expectations.{meets_expectation};
ghost use Rattle.tn_command.specs.Status.{status_after_judgement};

use crate::status::judge_status;
use std::process::ExitCode;
use tn_expectation::Expectation;

/// The status of what ended with a status so far and with this output, after the reasons on standard error where the
/// output isn't what is expected.
pub(crate) fn judge<R: Eprint + AllocGlobal>(
    rt: &R,
    status: ExitCode,
    output: &[u8],
    expectation: &Expectation<'_>,
) -> ExitCode
    ensures { exit_status result ≡
        status_after_judgement (exit_status status) (meets_expectation expectation.now output.now) }
{
    let is_met = expectation.meets(output);
    if status == ExitCode::SUCCESS && !is_met {
        expectation.tell_unmet(rt, output);
    }
    judge_status(status, is_met)
}
