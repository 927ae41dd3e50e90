// The words of the command line.
ghost use Rattle.std.specs.Prelude.{◌≡◌, IfErr};
ghost use Rattle.std.specs.Process.{exit_status};

use std::process::ExitCode;
use std::rt::Env;

/// `tn_command::arguments` has one status where it has no words.
pub fn arguments<R: Env + Eprint + AllocGlobal>(
    rt: &R,
) -> (Result<Vec<String>, ExitCode>, Result<Vec<String>, ExitCode>)
    ensures { IfErr result.0 (λ s. IfErr result.1 (λ t. exit_status s ≡ exit_status t)) }
{
    let first = tn_command::arguments(rt);
    let second = tn_command::arguments(rt);
    (first, second)
}
