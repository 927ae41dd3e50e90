// The sessions that commands create and name.
ghost use Rattle.std.specs.Prelude.{◌≡◌, ◌++◌, map, OnOk};
ghost use Rattle.std.specs.Option.{option_map};
ghost use Rattle.def_script.specs.Rules.{commands_of_form, creates_session};
ghost use Rattle.def_wording.specs.Firsts.{first_with_earlier};
ghost use Rattle.def_wording.specs.RuleTexts.{created_twice, tracer_of, without_creation, rule_reason_text};
ghost use Rattle.def_wording.specs.RuleTexts.{session_passing, unmade_session, unmade_reason, rule_reasons_text};
ghost use Rattle.def_wording.specs.RuleTexts.{session_holder, tracer_holder, unless_there};
ghost use Rattle.def_wording.specs.RuleTexts.{created_again_reason, tracer_reason};
ghost use Rattle.tn_flags.specs.Views.{command_of};
ghost use Rattle.tn_script.specs.Views.{form_of};
ghost use Rattle.tn_program.specs.Commands.{form_commands, commands_before};
ghost use Rattle.tn_refusal.specs.RuleViews.{creates_in_role, holder_in_role, created_name_seen};

use crate::put::put_atom;
use std::alloc::{AllocError, Allocator};
use tn_flags::Command;
use tn_script::Form;
use tn_term::Atom;

/// What a creation names that no other creation may name.
#[derive(Clone, Copy)]
enum Role {
    Session,
    Tracer,
}

/// Whether the command is a creation with this name in the role.
fn creates<A: Allocator>(role: Role, command: &Command<A>, name: &str) -> bool
    ensures { result ≡ creates_in_role role name.now (command_of command.now) }
{
    match command {
        Command::SessionCreate { session, tracer } => match role {
            Role::Session => session.text() == name,
            Role::Tracer => tracer.text() == name,
        },
        _ => false,
    }
}

/// The session that the first of the commands creates with this name in the role.
fn created_in<'a, A: Allocator>(
    role: Role,
    commands: &'a [Command<A>],
    name: &str,
) -> Option<&'a Atom<A>>
    ensures { option_map (λ a. a.now) result
        ≡ session_passing (creates_in_role role name.now) (map command_of commands.now) }
{
    for command in commands {
        if creates(role, command, name) {
            return Some(command.session());
        }
    }
    None
}

/// The session that the first such command of a form creates.
fn created_by_form<'a, A: Allocator>(
    role: Role,
    form: &'a Form<A>,
    name: &str,
) -> Option<&'a Atom<A>>
    ensures { option_map (λ a. a.now) result
        ≡ session_passing (creates_in_role role name.now) (commands_of_form (form_of form.now)) }
{
    match form {
        Form::Control(commands) => created_in(role, commands, name),
        _ => None,
    }
}

/// The session that the first such command of the forms creates.
fn created_before<'a, A: Allocator>(
    role: Role,
    forms: &'a [Form<A>],
    name: &str,
) -> Option<&'a Atom<A>>
    ensures { option_map (λ a. a.now) result
        ≡ session_passing (creates_in_role role name.now) (form_commands forms.now) }
{
    for form in forms {
        match created_by_form(role, form, name) {
            Some(session) => return Some(session),
            None => {}
        }
    }
    None
}

/// The session that the first such command creates, of those of the forms and these after them.
fn earlier_creation<'a, A: Allocator>(
    role: Role,
    earlier: &'a [Form<A>],
    commands: &'a [Command<A>],
    name: &str,
) -> Option<&'a Atom<A>>
    ensures { option_map (λ a. a.now) result
        ≡ session_passing (creates_in_role role name.now) (commands_before earlier.now commands.now) }
{
    match created_before(role, earlier, name) {
        Some(session) => Some(session),
        None => created_in(role, commands, name),
    }
}

/// What a creation names in a role, and the session that an earlier one creates so.
#[derive(Drop)]
struct CreatedName<'a, A: Allocator> {
    name: &'a Atom<A>,
    session: &'a Atom<A>,
}

/// The name in the role, where an earlier creation has it.
fn holder_of<'a, A: Allocator>(
    role: Role,
    earlier: &'a [Form<A>],
    before: &'a [Command<A>],
    name: &'a Atom<A>,
) -> Option<CreatedName<'a, A>>
    ensures { option_map created_name_seen result ≡ option_map (λ n. (name.now, n))
        (session_passing (creates_in_role role name.now) (commands_before earlier.now before.now)) }
{
    match earlier_creation(role, earlier, before, name.text()) {
        Some(session) => Some(CreatedName { name, session }),
        None => None,
    }
}

/// The session of a creation, where an earlier one creates it.
fn session_taken<'a, A: Allocator>(
    earlier: &'a [Form<A>],
    before: &'a [Command<A>],
    command: &'a Command<A>,
) -> Option<CreatedName<'a, A>>
    ensures { option_map created_name_seen result
        ≡ session_holder (commands_before earlier.now before.now) (command_of command.now) }
{
    match command {
        Command::SessionCreate { session, .. } => holder_of(
            Role::Session,
            earlier,
            before,
            session,
        ),
        Command::SessionDestroy { .. } => None,
        Command::Process { .. } => None,
        Command::Function { .. } => None,
        Command::Send { .. } => None,
        Command::Recv { .. } => None,
    }
}

/// The tracer of a creation, where an earlier one has it.
fn tracer_taken<'a, A: Allocator>(
    earlier: &'a [Form<A>],
    before: &'a [Command<A>],
    command: &'a Command<A>,
) -> Option<CreatedName<'a, A>>
    ensures { option_map created_name_seen result
        ≡ tracer_holder (commands_before earlier.now before.now) (command_of command.now) }
{
    match command {
        Command::SessionCreate { tracer, .. } => holder_of(Role::Tracer, earlier, before, tracer),
        Command::SessionDestroy { .. } => None,
        Command::Process { .. } => None,
        Command::Function { .. } => None,
        Command::Send { .. } => None,
        Command::Recv { .. } => None,
    }
}

/// What a command names in the role, where it is a creation and an earlier one has that name.
fn taken_by<'a, A: Allocator>(
    role: Role,
    earlier: &'a [Form<A>],
    before: &'a [Command<A>],
    command: &'a Command<A>,
) -> Option<CreatedName<'a, A>>
    ensures { option_map created_name_seen result
        ≡ holder_in_role role (commands_before earlier.now before.now) (command_of command.now) }
{
    match role {
        Role::Session => session_taken(earlier, before, command),
        Role::Tracer => tracer_taken(earlier, before, command),
    }
}

/// The first name in the role that a command has, and an earlier one has.
fn first_taken<'a, A: Allocator>(
    role: Role,
    earlier: &'a [Form<A>],
    commands: &'a [Command<A>],
) -> Option<CreatedName<'a, A>>
    ensures { option_map created_name_seen result
        ≡ first_with_earlier (holder_in_role role) (form_commands earlier.now) (map command_of commands.now) }
{
    for i in 0..commands.len() {
        let command = &commands[i];
        match taken_by(role, earlier, &commands[..i], command) {
            Some(taken) => return Some(taken),
            None => {}
        }
    }
    None
}

/// Appends a session that is created twice; after an `Err` a part of it may be there.
fn put_twice<A: Allocator>(name: &Atom<A>, out: &mut Vec<u8, A>) -> Result<(), AllocError>
    ensures { OnOk result (out.new.items ≡ out.old.items ++ rule_reason_text (created_twice name.now)) }
{
    put_atom(b": session ", name, out)
}

/// Appends a tracer and its session; after an `Err` a part of it may be there.
fn put_tracer<A: Allocator>(
    tracer: &Atom<A>,
    session: &Atom<A>,
    out: &mut Vec<u8, A>,
) -> Result<(), AllocError>
    ensures { OnOk result (out.new.items ≡ out.old.items ++ rule_reason_text (tracer_of tracer.now session.now)) }
{
    put_atom(b": ", tracer, out)?;
    put_atom(b" is the tracer of session ", session, out)
}

/// Appends a session that no earlier command creates; after an `Err` a part of it may be there.
fn put_uncreated<A: Allocator>(session: &Atom<A>, out: &mut Vec<u8, A>) -> Result<(), AllocError>
    ensures { OnOk result (out.new.items ≡ out.old.items ++ rule_reason_text (without_creation session.now)) }
{
    put_atom(b": session ", session, out)?;
    out.extend_from_slice(b", which no earlier command creates")
}

/// Appends the first session that is created again; after an `Err` a part of it may be there.
pub fn put_created_again<A: Allocator>(
    earlier: &[Form<A>],
    commands: &[Command<A>],
    out: &mut Vec<u8, A>,
) -> Result<(), AllocError>
    ensures { OnOk result (out.new.items ≡ out.old.items ++ rule_reasons_text
        (created_again_reason (form_commands earlier.now) (map command_of commands.now))) }
{
    match first_taken(Role::Session, earlier, commands) {
        Some(taken) => put_twice(taken.name, out),
        None => Ok(()),
    }
}

/// Appends the first tracer that another session has, and that session; after an `Err` a part of it may be there.
pub fn put_tracer_taken<A: Allocator>(
    earlier: &[Form<A>],
    commands: &[Command<A>],
    out: &mut Vec<u8, A>,
) -> Result<(), AllocError>
    ensures { OnOk result (out.new.items ≡ out.old.items ++ rule_reasons_text
        (tracer_reason (form_commands earlier.now) (map command_of commands.now))) }
{
    match first_taken(Role::Tracer, earlier, commands) {
        Some(taken) => put_tracer(taken.name, taken.session, out),
        None => Ok(()),
    }
}

/// The session of this name, where no earlier command creates it.
fn unless_created<'a, A: Allocator>(
    earlier: &[Form<A>],
    before: &[Command<A>],
    session: &'a Atom<A>,
) -> Option<&'a Atom<A>>
    ensures { option_map (λ a. a.now) result ≡ unless_there session.now
        (session_passing (creates_session session.now) (commands_before earlier.now before.now)) }
{
    match earlier_creation(Role::Session, earlier, before, session.text()) {
        Some(_) => None,
        None => Some(session),
    }
}

/// The session of a command other than a creation, where no earlier command creates it.
fn unmade_by<'a, A: Allocator>(
    earlier: &[Form<A>],
    before: &[Command<A>],
    command: &'a Command<A>,
) -> Option<&'a Atom<A>>
    ensures { option_map (λ a. a.now) result
        ≡ unmade_session (commands_before earlier.now before.now) (command_of command.now) }
{
    match command {
        Command::SessionCreate { .. } => None,
        Command::SessionDestroy { session } => unless_created(earlier, before, session),
        Command::Process { session, .. } => unless_created(earlier, before, session),
        Command::Function { session, .. } => unless_created(earlier, before, session),
        Command::Send { session, .. } => unless_created(earlier, before, session),
        Command::Recv { session, .. } => unless_created(earlier, before, session),
    }
}

/// The first session that a command other than a creation names and no earlier one creates.
fn first_unmade<'a, A: Allocator>(
    earlier: &[Form<A>],
    commands: &'a [Command<A>],
) -> Option<&'a Atom<A>>
    ensures { option_map (λ a. a.now) result
        ≡ first_with_earlier unmade_session (form_commands earlier.now) (map command_of commands.now) }
{
    for i in 0..commands.len() {
        let command = &commands[i];
        match unmade_by(earlier, &commands[..i], command) {
            Some(session) => return Some(session),
            None => {}
        }
    }
    None
}

/// Appends the first session that a command other than a creation names and no earlier one creates; after an `Err` a
/// part of it may be there.
pub fn put_unmade<A: Allocator>(
    earlier: &[Form<A>],
    commands: &[Command<A>],
    out: &mut Vec<u8, A>,
) -> Result<(), AllocError>
    ensures { OnOk result (out.new.items ≡ out.old.items ++ rule_reasons_text
        (unmade_reason (form_commands earlier.now) (map command_of commands.now))) }
{
    match first_unmade(earlier, commands) {
        Some(session) => put_uncreated(session, out),
        None => Ok(()),
    }
}
