// The command `serve`, which has no arguments.
ghost use Rattle.std.specs.Prelude.{[], codes, IfOk};
ghost use Rattle.tn_line.specs.Line.{IsCommand};

use clap::Command;
use std::alloc::{AllocError, Global};

/// What stands below the help of `serve`.
const REQUESTS: &str = "\
A request is a JSON object on a line: the words of a command line, and what the
command reads of standard input, which is empty where it is absent. The answer
is a line with the exit status, standard output and standard error.

Example:
  echo '{\"command\":[\"fun\"],\"input\":\"fun(_) -> true end\"}' | tracenode serve";

/// The subcommand `serve`.
pub(crate) fn serve<'a>(alloc: Global) -> Result<Command<'a>, AllocError>
    ensures { IfOk result (IsCommand (codes "serve") []) }
{
    Ok(
        Command::new(alloc, "serve")
            .about("Answers requests, a line of JSON each, until standard input ends")
            .after_help(REQUESTS),
    )
}
