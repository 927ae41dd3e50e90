// The program that forms make.
ghost use Rattle.std.specs.Prelude.{◌≡◌, IfOk, OnOk, None, map};
ghost use Rattle.def_script.specs.Rules.{first_broken};
ghost use Rattle.def_script.specs.Script.{program_from};
ghost use Rattle.tn_script.specs.Views.{form_of};
ghost use Rattle.tn_program.specs.Views.{program_of};
ghost use Rattle.tn_program.specs.FormParts.{GainsFunction, GainsEntry, GainsCommands};
ghost use Rattle.tn_program.specs.Faults.{IsProgramOf};

use crate::fault::RuleFault;
use crate::parts::Program;
use crate::rules::check_rules;
use std::alloc::{AllocError, Allocator};
use std::sync::Arc;
use tn_flags::Command;
use tn_script::{Entry, Form, Function};

/// The form's part is added to those before it.
fn add<A: Allocator>(
    functions: &mut Vec<Function<A>, A>,
    entries: &mut Vec<Entry<A>, A>,
    commands: &mut Vec<Command<A>, A>,
    form: Form<A>,
) -> Result<(), AllocError>
    ensures functions { OnOk result (GainsFunction functions.old.items functions.new.items form) }
    ensures entries { OnOk result (GainsEntry entries.old.items entries.new.items form) }
    ensures commands { OnOk result (GainsCommands commands.old.items commands.new.items form) }
{
    match form {
        Form::Function(function) => {
            functions.push(function)?;
            Ok(())
        }
        Form::Process(entry) => {
            entries.push(entry)?;
            Ok(())
        }
        Form::Control(mut more) => {
            commands.append(&mut more)?;
            Ok(())
        }
    }
}

/// The parts of forms that keep all rules.
fn gather<A: Allocator + Copy>(alloc: A, forms: Vec<Form<A>, A>) -> Result<Program<A>, AllocError>
    requires { first_broken (map form_of forms.items) ≡ None }
    ensures { IfOk result (λ p. program_of p ≡ program_from (map form_of forms.items)) }
{
    let mut functions = Vec::new(alloc);
    let mut entries = Vec::new(alloc);
    let mut commands = Vec::new(alloc);
    for form in forms {
        add(&mut functions, &mut entries, &mut commands, form)?;
    }
    Ok(Program {
        functions: Arc::new(alloc, functions)?,
        entries,
        commands,
    })
}

/// The program that the forms make, where each keeps all static rules. Else the fault tells the
/// lowest-numbered form that breaks one, and the least rule that it breaks. Memory that runs out is
/// `OutOfMemory` and says nothing of the forms.
pub fn program<A: Allocator + Copy>(
    alloc: A,
    forms: Vec<Form<A>, A>,
) -> Result<Program<A>, RuleFault>
    ensures { IsProgramOf (map form_of forms.items) result }
{
    match check_rules(alloc, &forms) {
        Ok(()) => {
            let Ok(program) = gather(alloc, forms) else {
                return Err(RuleFault::OutOfMemory);
            };
            Ok(program)
        }
        Err(fault) => Err(fault),
    }
}
