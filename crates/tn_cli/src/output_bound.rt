// How many bytes the output may have.
ghost use Rattle.std.specs.Prelude.{OkIff, IfErr, IfOk, codes};
ghost use Rattle.tn_cli.specs.Bounds.{IsBound, IsBoundOf, IsWithoutBound, bound_given};
ghost use Rattle.tn_cli.specs.Requests.{argument};

use crate::request::number;
use clap::ArgMatches;
use tn_command::{BadValue, MAX_OUTPUT};

/// How many bytes the output of a command may have, by what was read of its words.
fn most_given<'a>(given: &ArgMatches<'a>) -> Result<usize, BadValue<'a>>
    ensures { OkIff result (IsBound (argument given.now (codes "max-output")))
        (bound_given (argument given.now (codes "max-output"))) }
{
    if given.get_str("max-output").is_none() {
        return Ok(MAX_OUTPUT);
    }
    let most = number(given, "max-output", "--max-output <BYTES>", 1, u32::MAX)?;
    Ok(most as usize)
}

/// How many bytes the output may have that the command line asks for.
pub fn most_of<'a>(matches: &ArgMatches<'a>) -> Result<usize, BadValue<'a>>
    ensures most { IfOk result (IsBoundOf matches.now) }
    ensures refused { IfErr result (λ e. IsWithoutBound matches.now) }
{
    match matches.subcommand() {
        Some((_, given)) => most_given(given),
        None => Ok(MAX_OUTPUT),
    }
}
