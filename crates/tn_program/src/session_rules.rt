// The sessions that commands create, their tracers, and the rules on commands.
ghost use Rattle.std.specs.Prelude.{◌≡◌, map, length, nat_le};
ghost use Rattle.std.specs.List.{list_any};
ghost use Rattle.def_script.specs.Rules.{creates_session, gives_tracer, is_created as is_created_by, commands_of_form};
ghost use Rattle.def_script.specs.Rules.{creates_again, commands_unmade, takes_tracer, any_with_earlier};
ghost use Rattle.def_script.specs.Limits.{COMMANDS as command_limit, SESSIONS as session_limit};
ghost use Rattle.def_refusal.specs.Items.{is_past};
ghost use Rattle.tn_flags.specs.Views.{command_of};
ghost use Rattle.tn_script.specs.Views.{form_of};
ghost use Rattle.tn_program.specs.Commands.{creates_with, any_creates, command_breaks};
ghost use Rattle.tn_program.specs.Commands.{form_commands, commands_before, creation_count};

use crate::counts::{all_commands, all_creations, creation_total, is_creation, reaches};
use std::alloc::Allocator;
use tn_flags::Command;
use tn_script::{Form, MAX_COMMANDS};

/// The greatest number of sessions.
pub const SESSIONS: u64 = 128;

/// Which name of a creation is asked for.
#[derive(Clone, Copy)]
pub enum NameOf {
    Session,
    Tracer,
}

/// The rules on a command, given those before it.
#[derive(Clone, Copy)]
pub enum CommandRule {
    /// It creates a session that an earlier command creates.
    Again,
    /// It is another than a creation, on a session that no earlier command creates.
    Unmade,
    /// It creates a session with a tracer that an earlier creation has.
    TracerTaken,
    /// It is past the greatest number of commands, or a creation past that of sessions.
    Late,
}

/// Whether the command creates the session.
fn creates<A: Allocator>(command: &Command<A>, name: &str) -> bool
    ensures { result ≡ creates_session name.now (command_of command.now) }
{
    match command {
        Command::SessionCreate { session, .. } => session.text() == name,
        _ => false,
    }
}

/// Whether the command creates a session with this tracer.
fn gives<A: Allocator>(command: &Command<A>, name: &str) -> bool
    ensures { result ≡ gives_tracer name.now (command_of command.now) }
{
    match command {
        Command::SessionCreate { tracer, .. } => tracer.text() == name,
        _ => false,
    }
}

/// Whether the command is a creation with this name as its session or its tracer.
fn is_creation_with<A: Allocator>(command: &Command<A>, of: NameOf, name: &str) -> bool
    ensures { result ≡ creates_with of name.now (command_of command.now) }
{
    match of {
        NameOf::Session => creates(command, name),
        NameOf::Tracer => gives(command, name),
    }
}

/// Whether one of the commands is such a creation.
fn commands_create<A: Allocator>(commands: &[Command<A>], of: NameOf, name: &str) -> bool
    ensures { result ≡ any_creates of name.now (map command_of commands.now) }
{
    for command in commands {
        if is_creation_with(command, of, name) {
            return true;
        }
    }
    false
}

/// Whether one of the form's commands is such a creation.
fn form_creates<A: Allocator>(form: &Form<A>, of: NameOf, name: &str) -> bool
    ensures { result ≡ any_creates of name.now (commands_of_form (form_of form.now)) }
{
    match form {
        Form::Control(commands) => commands_create(commands, of, name),
        _ => false,
    }
}

/// Whether one of the forms' commands is such a creation.
fn forms_create<A: Allocator>(forms: &[Form<A>], of: NameOf, name: &str) -> bool
    ensures { result ≡ list_any (λ f. any_creates of name.now (commands_of_form f)) (map form_of forms.now) }
{
    for form in forms {
        if form_creates(form, of, name) {
            return true;
        }
    }
    false
}

/// Whether one of the forms' commands, or of these after them, is such a creation.
fn is_created<A: Allocator>(
    forms: &[Form<A>],
    commands: &[Command<A>],
    of: NameOf,
    name: &str,
) -> bool
    ensures { result ≡ any_creates of name.now (commands_before forms.now commands.now) }
{
    forms_create(forms, of, name) || commands_create(commands, of, name)
}

/// Whether one of the forms' commands, or of these after them, creates the session.
fn is_session<A: Allocator>(forms: &[Form<A>], commands: &[Command<A>], name: &str) -> bool
    ensures { result ≡ is_created_by (commands_before forms.now commands.now) name.now }
{
    is_created(forms, commands, NameOf::Session, name)
}

/// Whether the command creates a session that an earlier command creates.
fn is_again<A: Allocator>(forms: &[Form<A>], before: &[Command<A>], command: &Command<A>) -> bool
    ensures { result ≡ creates_again (commands_before forms.now before.now) (command_of command.now) }
{
    match command {
        Command::SessionCreate { session, .. } => is_session(forms, before, session.text()),
        _ => false,
    }
}

/// Whether the command is another than a creation, on a session that no earlier command creates.
fn is_unmade<A: Allocator>(forms: &[Form<A>], before: &[Command<A>], command: &Command<A>) -> bool
    ensures { result ≡ commands_unmade (commands_before forms.now before.now) (command_of command.now) }
{
    match command {
        Command::SessionCreate { .. } => false,
        Command::SessionDestroy { session } => !is_session(forms, before, session.text()),
        Command::Process { session, .. } => !is_session(forms, before, session.text()),
        Command::Function { session, .. } => !is_session(forms, before, session.text()),
        Command::Send { session, .. } => !is_session(forms, before, session.text()),
        Command::Recv { session, .. } => !is_session(forms, before, session.text()),
    }
}

/// Whether the command creates a session with a tracer that an earlier creation has.
fn is_taken<A: Allocator>(forms: &[Form<A>], before: &[Command<A>], command: &Command<A>) -> bool
    ensures { result ≡ takes_tracer (commands_before forms.now before.now) (command_of command.now) }
{
    match command {
        Command::SessionCreate { tracer, .. } => is_created(
            forms,
            before,
            NameOf::Tracer,
            tracer.text(),
        ),
        _ => false,
    }
}

/// Whether the forms' commands and these are as many as may be.
fn has_all_commands<A: Allocator>(forms: &[Form<A>], commands: &[Command<A>]) -> bool
    ensures { result ≡ nat_le command_limit (length (commands_before forms.now commands.now)) }
{
    reaches(
        MAX_COMMANDS as u64,
        all_commands(forms),
        commands.len() as u64,
    )
}

/// Whether as many of them are creations as may be.
fn has_all_sessions<A: Allocator>(forms: &[Form<A>], commands: &[Command<A>]) -> bool
    ensures { result ≡ nat_le session_limit (creation_count (commands_before forms.now commands.now)) }
{
    reaches(SESSIONS, all_creations(forms), creation_total(commands))
}

/// Whether the command is past the greatest number of commands, or is a creation past that of sessions.
fn is_late<A: Allocator>(forms: &[Form<A>], before: &[Command<A>], command: &Command<A>) -> bool
    ensures { result ≡ is_past (commands_before forms.now before.now) (command_of command.now) }
{
    has_all_commands(forms, before) || (is_creation(command) && has_all_sessions(forms, before))
}

/// Whether the command breaks the rule.
pub fn breaks<A: Allocator>(
    rule: CommandRule,
    forms: &[Form<A>],
    before: &[Command<A>],
    command: &Command<A>,
) -> bool
    ensures { result ≡ command_breaks rule (commands_before forms.now before.now) (command_of command.now) }
{
    match rule {
        CommandRule::Again => is_again(forms, before, command),
        CommandRule::Unmade => is_unmade(forms, before, command),
        CommandRule::TracerTaken => is_taken(forms, before, command),
        CommandRule::Late => is_late(forms, before, command),
    }
}

/// Whether one of the commands, which follow those of the forms, breaks the rule.
pub fn any_breaks<A: Allocator>(
    rule: CommandRule,
    forms: &[Form<A>],
    commands: &[Command<A>],
) -> bool
    ensures { result ≡ any_with_earlier (command_breaks rule) (form_commands forms.now) (map command_of commands.now) }
{
    for i in 0..commands.len() {
        if breaks(rule, forms, &commands[..i], &commands[i]) {
            return true;
        }
    }
    false
}
