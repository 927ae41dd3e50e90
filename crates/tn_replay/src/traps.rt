// Whether a specification of a program's commands has a trap.
ghost use Rattle.std.specs.Prelude.{◌≡◌, IfOk};
ghost use Rattle.def_script.specs.Exports.{exports_of};
ghost use Rattle.def_explain.specs.Remarks.{command_has_trap, has_traps};
ghost use Rattle.tn_flags.specs.Views.{command_of};
ghost use Rattle.tn_program.specs.Views.{program_of};

use std::alloc::{AllocError, Allocator};
use tn_command_reason::has_trap;
use tn_flags::Command;
use tn_program::Program;

/// Whether the specification of a command has a trap, where the functions are the program's.
fn command_has_trap<A: Allocator + Copy>(
    alloc: A,
    program: &Program<A>,
    command: &Command<A>,
) -> Result<bool, AllocError>
    ensures { IfOk result (λ b. b ≡
        command_has_trap (exports_of (program_of program.now)) (command_of command.now)) }
{
    has_trap(alloc, program.functions(), command)
}

/// Whether that of one of the program's commands has.
pub(crate) fn has_traps<A: Allocator + Copy>(
    alloc: A,
    program: &Program<A>,
) -> Result<bool, AllocError>
    ensures { IfOk result (λ b. b ≡ has_traps (program_of program.now)) }
{
    for command in program.commands() {
        if command_has_trap(alloc, program, command)? {
            return Ok(true);
        }
    }
    Ok(false)
}
