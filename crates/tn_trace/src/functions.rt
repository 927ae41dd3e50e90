// The functions of a program, as sessions know them, and its commands by their numbers.
ghost use Rattle.std.specs.Prelude.{◌≡◌, IfOk, map};
ghost use Rattle.std.specs.Option.{option_map};
ghost use Rattle.tn_flags.specs.Views.{command_of};
ghost use Rattle.tn_program.specs.Views.{program_of};
ghost use Rattle.tn_script.specs.Views.{functions_of};
ghost use Rattle.tn_session.specs.Views.{function_seen};
ghost use Rattle.def_script.specs.Exports.{visible};
ghost use Rattle.tn_trace.specs.Tracks.{command_numbered};

use std::alloc::{AllocError, Allocator};
use tn_flags::Command;
use tn_process::function_mfa;
use tn_program::Program;
use tn_script::Function;
use tn_term::Mfa;

/// Each function of the program, with whether it is exported.
pub(crate) fn visible_functions<A: Allocator + Copy>(
    alloc: A,
    functions: &[Function<A>],
) -> Result<Vec<(Mfa<A>, bool), A>, AllocError>
    ensures { IfOk result (λ v. map function_seen v.items ≡ visible (functions_of functions.now)) }
{
    let mut seen = Vec::new(alloc);
    for function in functions {
        let mfa = function_mfa(alloc, function)?;
        seen.push((mfa, function.exported))?;
    }
    Ok(seen)
}

/// The command of this number, from 1.
pub fn command_at<A: Allocator>(program: &Program<A>, number: u64) -> Option<&Command<A>>
    ensures { option_map (λ c. command_of c.now) result ≡ command_numbered (program_of program.now).commands number }
{
    if number == 0 {
        return None;
    }
    match program.commands().get((number - 1) as usize) {
        Some(command) => Some(command),
        None => None,
    }
}
