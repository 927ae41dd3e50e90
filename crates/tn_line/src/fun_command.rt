// The command `fun`, with its arguments.
ghost use Rattle.std.specs.Prelude.{codes, IfOk};
ghost use Rattle.tn_line.specs.Line.{IsCommand, IsElse, IsFlag, IsOption, IsWord, FUN_ARGUMENTS};

use crate::arguments::EVENTS;
use clap::{Arg, ArgAction, Command};
use std::alloc::{AllocError, Global};

/// What stands below the help of `fun`.
const EXAMPLE: &str = "\
Example:
  tracenode fun 'fun([M,N]) when N > 3 -> message(M) end'";

/// `--for EVENT` of `fun`.
fn fun_event<'a>(alloc: Global) -> Arg<'a>
    ensures named { IsOption (codes "for") result }
    ensures value { IsElse (codes "call") result }
{
    Arg::new(alloc, "for")
        .long("for")
        .value_name("EVENT")
        .help("What the specification is for: call, send or receive\n")
        .value_parser(EVENTS)
        .default_value("call")
        .action(ArgAction::Set)
}

/// `--pretty`.
fn pretty<'a>(alloc: Global) -> Arg<'a>
    ensures { IsFlag (codes "pretty") result }
{
    Arg::new(alloc, "pretty")
        .long("pretty")
        .help("FUN is a match specification, and the fun that it is of\nis printed")
        .action(ArgAction::SetTrue)
}

/// The fun.
fn fun_text<'a>(alloc: Global) -> Arg<'a>
    ensures { IsWord (codes "fun") result }
{
    Arg::new(alloc, "fun")
        .value_name("FUN")
        .help("The fun, as dbg:fun2ms/1 takes it; standard input where it\nis absent or -")
        .allow_hyphen_values(true)
        .action(ArgAction::Set)
}

/// The subcommand `fun [--for EVENT] [--pretty] [FUN]`.
pub(crate) fn fun<'a>(alloc: Global) -> Result<Command<'a>, AllocError>
    ensures { IfOk result (IsCommand (codes "fun") FUN_ARGUMENTS) }
{
    Command::new(alloc, "fun")
        .after_help(EXAMPLE)
        .about(
            "Prints the match specification of a fun, as dbg:fun2ms/1 has it, or\nwhy it has none",
        )
        .arg(fun_event(alloc))?
        .arg(pretty(alloc))?
        .arg(fun_text(alloc))
}
