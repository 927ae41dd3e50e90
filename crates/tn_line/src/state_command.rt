// The command `state`, with its arguments.
ghost use Rattle.std.specs.Prelude.{◌≡◌, codes, true, IfOk};
ghost use Rattle.tn_line.specs.Line.{IsCommand, IsFromTo, IsOption, WantsOneOf, PICKS_OR_ROUND, STATE};

use crate::arguments::json;
use crate::commands::{by_picks_or_rounds, with_expectation};
use clap::{Arg, ArgAction, Command, value_parser};
use std::alloc::{AllocError, Global};

/// What stands below the help of `state`.
const STATE_EXAMPLE: &str = "\
Example:
  tracenode state examples/numbers.term --moves '0! go!' --at 9";

/// `--at N`, which is required.
fn at<'a>(alloc: Global) -> Arg<'a>
    ensures named { IsOption (codes "at") result }
    ensures needed { result.required ≡ true }
    ensures range { IsFromTo 0 4294967295 result }
{
    Arg::new(alloc, "at")
        .long("at")
        .value_name("N")
        .help("After how many moves; 0 is before any of them")
        .required(true)
        .value_parser(value_parser!(u32).range(0..=4294967295))
        .action(ArgAction::Set)
}

/// `--session NAME`. NAME may begin with a hyphen, and may be in quotes as atoms are in scripts.
fn one_session<'a>(alloc: Global) -> Arg<'a>
    ensures { IsOption (codes "session") result }
{
    Arg::new(alloc, "session")
        .long("session")
        .value_name("NAME")
        .help("Prints the session of this name, in quotes or not,\nand no other")
        .allow_hyphen_values(true)
        .action(ArgAction::Set)
}

/// The subcommand `state [SCRIPT] --at N [--session NAME] [--json]` with picks, moves or
/// `--round [--limit N] [--control first]`, and with what its output must be.
pub(crate) fn state<'a>(alloc: Global) -> Result<Command<'a>, AllocError>
    ensures arguments { IfOk result (IsCommand (codes "state") STATE) }
    ensures picks { IfOk result (WantsOneOf PICKS_OR_ROUND) }
{
    let about = "Runs the script by picks, moves or rounds, and prints the state\nafter a move";
    let command = by_picks_or_rounds(alloc, "state", about, STATE_EXAMPLE)?
        .arg(at(alloc))?
        .arg(one_session(alloc))?
        .arg(json(alloc))?;
    with_expectation(alloc, command)
}
