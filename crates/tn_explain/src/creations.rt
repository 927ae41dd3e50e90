// The sessions that a control list creates.
ghost use Rattle.std.specs.Prelude.{◌≡◌, map};
ghost use Rattle.tn_flags.specs.Views.{command_of};
ghost use Rattle.tn_program.specs.Views.{program_of};
ghost use Rattle.def_script.specs.Rules.{creates_session, is_created};

use std::alloc::Allocator;
use tn_flags::Command;
use tn_program::Program;

/// Whether the command creates a session of this name.
fn creates<A: Allocator>(command: &Command<A>, name: &str) -> bool
    ensures { result ≡ creates_session name.now (command_of command.now) }
{
    match command {
        Command::SessionCreate { session, .. } => session.text() == name,
        _ => false,
    }
}

/// Whether one of the commands creates a session of this name.
fn is_created<A: Allocator>(commands: &[Command<A>], name: &str) -> bool
    ensures { result ≡ is_created (map command_of commands.now) name.now }
{
    for command in commands {
        if creates(command, name) {
            return true;
        }
    }
    false
}

/// Whether the control list creates a session of this name.
pub fn has_session<A: Allocator>(program: &Program<A>, name: &str) -> bool
    ensures { result ≡ is_created (program_of program.now).commands name.now }
{
    is_created(program.commands(), name)
}
