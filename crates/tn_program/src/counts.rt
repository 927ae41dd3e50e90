// How many functions, processes, commands and creations forms hold; u64::MAX stands for any larger number.
ghost use Rattle.std.specs.Prelude.{◌≡◌, ◌<◌, ◌+◌, ℕ, cond, min, length, map, nat_le};
ghost use Rattle.std.specs.List.{count_by};
ghost use Rattle.def_script.specs.Rules.{is_function as is_function_form, is_process as is_process_form};
ghost use Rattle.def_script.specs.Rules.{is_creation as is_creation_command, commands_of, commands_of_form};
ghost use Rattle.def_script.specs.Rules.{holds_past as is_past};
ghost use Rattle.tn_flags.specs.Views.{command_of};
ghost use Rattle.tn_script.specs.Views.{form_of};
ghost use Rattle.tn_program.specs.Commands.{Counts};

use std::alloc::Allocator;
use tn_flags::Command;
use tn_script::Form;

/// 1 for a function form, else 0.
fn functions_in<A: Allocator>(form: &Form<A>) -> u64
    ensures { result ≡ cond (is_function_form (form_of form.now)) 1 0 }
{
    match form {
        Form::Function(_) => 1,
        _ => 0,
    }
}

/// 1 for a process form, else 0.
fn processes_in<A: Allocator>(form: &Form<A>) -> u64
    ensures { result ≡ cond (is_process_form (form_of form.now)) 1 0 }
{
    match form {
        Form::Process(_) => 1,
        _ => 0,
    }
}

/// 1 for a creation, else 0.
fn creations_in<A: Allocator>(command: &Command<A>) -> u64
    ensures { result ≡ cond (is_creation_command (command_of command.now)) 1 0 }
{
    match command {
        Command::SessionCreate { .. } => 1,
        _ => 0,
    }
}

/// How many functions the forms declare.
pub fn function_total<A: Allocator>(forms: &[Form<A>]) -> u64
    ensures { result ≡ min (count_by is_function_form (map form_of forms.now)) u64.MAX }
{
    let mut total: u64 = 0;
    for form in forms {
        total = total.saturating_add(functions_in(form));
    }
    total
}

/// How many processes the forms start.
pub fn process_total<A: Allocator>(forms: &[Form<A>]) -> u64
    ensures { result ≡ min (count_by is_process_form (map form_of forms.now)) u64.MAX }
{
    let mut total: u64 = 0;
    for form in forms {
        total = total.saturating_add(processes_in(form));
    }
    total
}

/// How many of the commands are creations.
pub fn creation_total<A: Allocator>(commands: &[Command<A>]) -> u64
    ensures { result ≡ min (count_by is_creation_command (map command_of commands.now)) u64.MAX }
{
    let mut total: u64 = 0;
    for command in commands {
        total = total.saturating_add(creations_in(command));
    }
    total
}

/// How many commands the form holds.
fn form_commands<A: Allocator>(form: &Form<A>) -> u64
    ensures { result ≡ min (length (commands_of_form (form_of form.now))) u64.MAX }
{
    match form {
        Form::Control(commands) => commands.as_slice().len() as u64,
        _ => 0,
    }
}

/// How many creations the form holds.
fn form_creations<A: Allocator>(form: &Form<A>) -> u64
    ensures { result ≡ min (count_by is_creation_command (commands_of_form (form_of form.now))) u64.MAX }
{
    match form {
        Form::Control(commands) => creation_total(commands),
        _ => 0,
    }
}

/// How many commands the forms hold.
pub fn all_commands<A: Allocator>(forms: &[Form<A>]) -> u64
    ensures { result ≡ min (length (commands_of (map form_of forms.now))) u64.MAX }
{
    let mut total: u64 = 0;
    for form in forms {
        total = total.saturating_add(form_commands(form));
    }
    total
}

/// How many creations the forms hold.
pub fn all_creations<A: Allocator>(forms: &[Form<A>]) -> u64
    ensures { result ≡ min (count_by is_creation_command (commands_of (map form_of forms.now))) u64.MAX }
{
    let mut total: u64 = 0;
    for form in forms {
        total = total.saturating_add(form_creations(form));
    }
    total
}

/// Whether `held` further ones, if any, go past the limit.
pub fn holds_past(limit: u64, before: u64, held: u64) -> bool
    ensures { (m n : ℕ) → limit < u64.MAX → Counts before m → Counts held n → result ≡ is_past limit m n }
{
    0 < held && limit < before.saturating_add(held)
}

/// Whether `before` and `held` further ones are as many as the limit, or more.
pub fn reaches(limit: u64, before: u64, held: u64) -> bool
    ensures { (m n : ℕ) → limit < u64.MAX → Counts before m → Counts held n → result ≡ nat_le limit (m + n) }
{
    limit <= before.saturating_add(held)
}

/// Whether the command creates a session.
pub fn is_creation<A: Allocator>(command: &Command<A>) -> bool
    ensures { result ≡ is_creation_command (command_of command.now) }
{
    match command {
        Command::SessionCreate { .. } => true,
        _ => false,
    }
}
