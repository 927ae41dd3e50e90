// The exit status of a fault.
ghost use Rattle.std.specs.Prelude.{◌≡◌};
ghost use Rattle.std.specs.Process.{exit_status};

use std::process::ExitCode;
use tn_notice::CommandFault;

/// `tn_command::report` has one answer, whatever the fault.
pub fn report<R: Eprint>(rt: &R, one: CommandFault, other: CommandFault) -> (ExitCode, ExitCode)
    ensures { exit_status result.0 ≡ exit_status result.1 }
{
    let first = tn_command::report(rt, one);
    let second = tn_command::report(rt, other);
    (first, second)
}
