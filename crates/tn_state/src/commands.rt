// The commands that a session accepted.
ghost use Rattle.std.specs.Prelude.{◌≡◌, ◌≤◌, take, length};
ghost use Rattle.std.specs.Str.{bytes_eq};
ghost use Rattle.def_script.specs.Program.{session_of};
ghost use Rattle.def_state.specs.SettingTerms.{after_creation};
ghost use Rattle.tn_flags.specs.Views.{command_of};
ghost use Rattle.tn_state.specs.Commands.{creates, own_commands};

use std::alloc::Allocator;
use tn_flags::Command;
use tn_term::Atom;

/// Whether the command is to the session of this name.
pub(crate) fn is_to<A: Allocator>(command: &Command<A>, name: &Atom<A>) -> bool
    ensures { result ≡ bytes_eq name.now (session_of (command_of command.now)) }
{
    name.text() == command.session().text()
}

/// Whether the command creates the session of this name.
fn creates<A: Allocator>(command: &Command<A>, name: &Atom<A>) -> bool
    ensures { result ≡ creates name.now (command_of command.now) }
{
    match command {
        Command::SessionCreate { session, .. } => name.text() == session.text(),
        _ => false,
    }
}

/// The commands after the first that creates the session of this name; none where none does.
pub(crate) fn since_creation<'a, A: Allocator>(
    commands: &'a [Command<A>],
    name: &Atom<A>,
) -> &'a [Command<A>]
    ensures { own_commands name.now result.now ≡ after_creation (own_commands name.now commands.now) }
{
    for place in 0..commands.len() {
        if creates(&commands[place], name) {
            return &commands[place + 1..];
        }
    }
    &commands[..0]
}
