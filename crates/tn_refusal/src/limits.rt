// Which limit on scripts is passed.
ghost use Rattle.std.specs.Prelude.{◌≡◌, ◌++◌, length, map, OnOk};
ghost use Rattle.def_script.specs.Program.{mfa_of, declares, controls};
ghost use Rattle.def_wording.specs.RuleTexts.{many_steps, total_text, rule_reason_text, limit_reason};
ghost use Rattle.tn_flags.specs.Views.{command_of};
ghost use Rattle.tn_script.specs.Views.{function_of, form_of};

use crate::callee::{declared_by, put_callee};
use crate::put::put_number;
use std::alloc::{AllocError, Allocator};
use tn_flags::Command;
use tn_program::{all_commands, all_creations, creation_total, function_total, process_total};
use tn_script::{Form, Function, MAX_COMMANDS, MAX_STEPS};

/// Appends how many steps a function has; after an `Err` a part of it may be there.
fn put_steps<A: Allocator>(function: &Function<A>, out: &mut Vec<u8, A>) -> Result<(), AllocError>
    ensures { OnOk result (out.new.items ≡ out.old.items ++ rule_reason_text
        (many_steps (length function.now.steps.items) (mfa_of (function_of function.now)))) }
{
    put_number(b": ", function.steps.len(), out)?;
    put_callee(b" steps in function ", &declared_by(function), out)
}

/// Appends a number and what there are so many of; after an `Err` a part of it may be there.
fn put_total<A: Allocator>(total: u64, what: &[u8], out: &mut Vec<u8, A>) -> Result<(), AllocError>
    ensures { OnOk result (out.new.items ≡ out.old.items ++ total_text total what.now) }
{
    put_number(b": ", total as usize, out)?;
    out.extend_from_slice(what)?;
    out.extend_from_slice(b" up to here")
}

/// Appends how many steps the function has, or how many functions there are with it; after an `Err` a part of it may
/// be there.
fn put_function_limit<A: Allocator>(
    earlier: &[Form<A>],
    function: &Function<A>,
    out: &mut Vec<u8, A>,
) -> Result<(), AllocError>
    ensures { OnOk result (out.new.items ≡ out.old.items ++ rule_reason_text
        (limit_reason (map form_of earlier.now) (declares (function_of function.now)))) }
{
    if function.steps.len() > MAX_STEPS {
        put_steps(function, out)
    } else {
        put_total(
            function_total(earlier).saturating_add(1),
            b" functions",
            out,
        )
    }
}

/// Appends how many commands there are with these, or how many of them are creations; after an `Err` a part of it may
/// be there.
fn put_control_limit<A: Allocator>(
    earlier: &[Form<A>],
    commands: &[Command<A>],
    out: &mut Vec<u8, A>,
) -> Result<(), AllocError>
    ensures { OnOk result (out.new.items ≡ out.old.items ++ rule_reason_text
        (limit_reason (map form_of earlier.now) (controls (map command_of commands.now)))) }
{
    let total = all_commands(earlier).saturating_add(commands.len() as u64);
    if total > MAX_COMMANDS as u64 {
        put_total(total, b" commands", out)
    } else {
        let created = all_creations(earlier).saturating_add(creation_total(commands));
        put_total(created, b" sessions", out)
    }
}

/// Appends which limit the form after the earlier ones passes; after an `Err` a part of it may be there.
pub fn put_limit<A: Allocator>(
    earlier: &[Form<A>],
    form: &Form<A>,
    out: &mut Vec<u8, A>,
) -> Result<(), AllocError>
    ensures { OnOk result (out.new.items
        ≡ out.old.items ++ rule_reason_text (limit_reason (map form_of earlier.now) (form_of form.now))) }
{
    match form {
        Form::Function(function) => put_function_limit(earlier, function, out),
        Form::Process(_) => {
            put_total(process_total(earlier).saturating_add(1), b" processes", out)
        }
        Form::Control(commands) => put_control_limit(earlier, commands, out),
    }
}
