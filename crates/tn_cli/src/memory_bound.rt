// How many bytes of memory a run may take.
ghost use Rattle.std.specs.Prelude.{OkIff, IfErr, IfOk, codes};
ghost use Rattle.tn_cli.specs.Bounds.{IsMemory, IsMemoryOf, IsWithoutMemory, memory_given};
ghost use Rattle.tn_cli.specs.Requests.{argument};

use crate::request::not_number;
use clap::ArgMatches;
use tn_command::{BadValue, MAX_MEMORY, long_number};

/// How many bytes of memory a run may take, by what was read of its command's words.
fn memory_given<'a>(given: &ArgMatches<'a>) -> Result<u64, BadValue<'a>>
    ensures { OkIff result (IsMemory (argument given.now (codes "max-memory")))
        (memory_given (argument given.now (codes "max-memory"))) }
{
    let Some(text) = given.get_str("max-memory") else {
        return Ok(MAX_MEMORY);
    };
    match long_number(text) {
        Some(number) if number >= 1 => Ok(number),
        _ => Err(not_number("--max-memory <BYTES>", text)),
    }
}

/// How many bytes of memory a run may take that the command line asks for.
pub fn memory_of<'a>(matches: &ArgMatches<'a>) -> Result<u64, BadValue<'a>>
    ensures most { IfOk result (IsMemoryOf matches.now) }
    ensures refused { IfErr result (λ e. IsWithoutMemory matches.now) }
{
    match matches.subcommand() {
        Some((_, given)) => memory_given(given),
        None => Ok(MAX_MEMORY),
    }
}
