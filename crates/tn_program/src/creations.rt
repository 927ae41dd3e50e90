// The sessions that a control list creates, in its order.
ghost use Rattle.std.specs.Prelude.{◌≡◌, ◌&&◌, ◌==◌, cond, length, map, slice_get};
ghost use Rattle.std.specs.Option.{option_map};
ghost use Rattle.def_script.specs.Rules.{is_creation};
ghost use Rattle.def_script.specs.Script.{creation_of, creations};
ghost use Rattle.tn_flags.specs.Views.{command_of};
ghost use Rattle.tn_program.specs.Variables.{name_pair};

use std::alloc::Allocator;
use std::marker::Model;
use tn_flags::Command;
use tn_term::Atom;

/// The sessions that a control list creates, in its order: of each the name and the tracer. It takes no
/// memory. Contracts see it as the names and tracers that are still to come.
#[derive(Drop)]
pub struct Sessions<'a, A: Allocator> {
    commands: &'a [Command<A>],
}

impl<'a, A: Allocator> Model for Sessions<'a, A> {
    ghost use Rattle.std.specs.Prelude.{List, map};
    ghost use Rattle.def_term.specs.Names.{Name};
    ghost use Rattle.def_script.specs.Script.{creations};
    ghost use Rattle.tn_flags.specs.Views.{command_of};

    ghost Value = { List (Name × Name) };

    ghost view = { λ s. creations (map command_of s.commands.now) };
}

impl<'a, A: Allocator> Iterator for Sessions<'a, A> {
    ghost use Rattle.std.specs.Iterator.{YieldsFirstBy, item_count};
    ghost use Rattle.tn_program.specs.Variables.{name_pair};

    type Item = (&'a Atom<A>, &'a Atom<A>);

    ghost next_gives = { YieldsFirstBy name_pair (λ left. left) };

    ghost remaining = { item_count (λ left. left) };

    fn next(&mut self) -> Option<(&'a Atom<A>, &'a Atom<A>)> {
        while let Some((command, others)) = self.commands.split_first() {
            self.commands = others;
            if let Some(session) = creation(command) {
                return Some(session);
            }
        }
        None
    }
}

/// The name and the tracer of the session that the command creates, if it creates one.
fn creation<A: Allocator>(command: &Command<A>) -> Option<(&Atom<A>, &Atom<A>)>
    ensures { option_map name_pair result ≡ creation_of (command_of command.now) }
{
    match command {
        Command::SessionCreate { session, tracer } => Some((session, tracer)),
        _ => None,
    }
}

/// 1 for a creation, else 0.
fn weight<A: Allocator>(command: &Command<A>) -> usize
    ensures { result ≡ cond (is_creation (command_of command.now)) 1 0 }
{
    match command {
        Command::SessionCreate { .. } => 1,
        _ => 0,
    }
}

/// Whether the command is a creation and none is to be passed over.
fn is_found<A: Allocator>(command: &Command<A>, left: usize) -> bool
    ensures { result ≡ (left == 0 && is_creation (command_of command.now)) }
{
    match command {
        Command::SessionCreate { .. } => left == 0,
        _ => false,
    }
}

/// How many sessions the commands create.
pub fn count_sessions<A: Allocator>(commands: &[Command<A>]) -> usize
    ensures { result ≡ length (creations (map command_of commands.now)) }
{
    let mut count = 0;
    for command in commands {
        count += weight(command);
    }
    count
}

/// The session with this number, from 0, that the commands create.
pub fn find_session<A: Allocator>(
    commands: &[Command<A>],
    number: usize,
) -> Option<(&Atom<A>, &Atom<A>)>
    ensures { option_map name_pair result ≡ slice_get (creations (map command_of commands.now)) number }
{
    let mut left = number;
    for command in commands {
        if is_found(command, left) {
            return creation(command);
        }
        left -= weight(command);
    }
    None
}

/// The sessions that the commands create.
pub fn sessions_of<A: Allocator>(commands: &[Command<A>]) -> Sessions<'_, A>
    ensures { result ≡ creations (map command_of commands.now) }
{
    Sessions { commands }
}
