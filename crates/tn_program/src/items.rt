// The step or the command for which a form breaks a rule.
ghost use Rattle.std.specs.Prelude.{◌≡◌, IfOk, [], map, length, nat_le};
ghost use Rattle.std.specs.Option.{option_map};
ghost use Rattle.def_script.specs.Limits.{STEPS as step_limit};
ghost use Rattle.def_script.specs.Rules.{unbound};
ghost use Rattle.def_refusal.specs.Items.{position_with_earlier, breaks_by_command};
ghost use Rattle.def_refusal.specs.Items.{command_at, breaking_item as breaking_item_of};
ghost use Rattle.tn_flags.specs.Views.{command_of};
ghost use Rattle.tn_script.specs.Items.{form_item_of};
ghost use Rattle.tn_script.specs.Views.{form_of, function_of, step_of};
ghost use Rattle.tn_program.specs.Commands.{command_breaks, form_commands};
ghost use Rattle.tn_program.specs.Declarations.{step_breaks};
ghost use Rattle.tn_program.specs.Faults.{rule_of, broken_of};
ghost use Rattle.tn_program.specs.Items.{rule_and_form, item_of_fault, position_in_steps, position_of_rule};

use crate::counts::all_commands;
use crate::fault::{Rule, RuleFault};
use crate::rules::{StepRule, is_against, is_long};
use crate::session_rules::{CommandRule, breaks};
use crate::variables::{bind, first_variables, step_unbound};
use std::alloc::{AllocError, Allocator};
use tn_flags::Command;
use tn_script::{Form, FormItem, Function, MAX_STEPS, Step};

/// The position of the first command, of those that follow the forms', that breaks the rule.
fn breaking_command<A: Allocator>(
    rule: CommandRule,
    forms: &[Form<A>],
    commands: &[Command<A>],
) -> Option<usize>
    ensures { result ≡ position_with_earlier (command_breaks rule) (form_commands forms.now) 1
        (map command_of commands.now) }
{
    for i in 0..commands.len() {
        if breaks(rule, forms, &commands[..i], &commands[i]) {
            return Some(i + 1);
        }
    }
    None
}

/// The position of the first step that breaks the rule.
fn breaking_step<A: Allocator>(
    rule: StepRule,
    forms: &[Form<A>],
    of_module: &str,
    steps: &[Step<A>],
) -> Option<usize>
    ensures { result ≡ position_in_steps (step_breaks rule (map form_of forms.now) of_module.now)
        (map step_of steps.now) }
{
    for i in 0..steps.len() {
        if is_against(rule, forms, of_module, &steps[i]) {
            return Some(i + 1);
        }
    }
    None
}

/// The position of the first step that has a variable, elsewhere than as its target, that isn't bound there.
fn unbound_step<A: Allocator + Copy>(
    alloc: A,
    function: &Function<A>,
) -> Result<Option<usize>, AllocError>
    ensures { IfOk result (λ o. o ≡ position_of_rule [] (function_of function.now) unbound) }
{
    let mut bound = first_variables(alloc, function)?;
    let mut passed = 0;
    for step in &function.steps {
        if step_unbound(&bound, step) {
            return Ok(Some(passed + 1));
        }
        bind(&mut bound, step)?;
        passed += 1;
    }
    Ok(None)
}

/// The position of the first step past the greatest number of them.
fn late_step<A: Allocator>(steps: &[Step<A>]) -> Option<usize>
    ensures { result ≡ position_with_earlier (λ before s. nat_le step_limit (length before)) [] 1
        (map step_of steps.now) }
{
    if is_long(steps) {
        Some(MAX_STEPS + 1)
    } else {
        None
    }
}

/// The position of the first step of the function that breaks the rule.
fn step_position<A: Allocator + Copy>(
    alloc: A,
    forms: &[Form<A>],
    function: &Function<A>,
    rule: Rule,
) -> Result<Option<usize>, AllocError>
    ensures { IfOk result (λ o. o
        ≡ position_of_rule (map form_of forms.now) (function_of function.now) (rule_of rule)) }
{
    let of_module = function.module.text();
    match rule {
        Rule::Undeclared => Ok(breaking_step(
            StepRule::Undeclared,
            forms,
            of_module,
            &function.steps,
        )),
        Rule::NotExported => Ok(breaking_step(
            StepRule::Internal,
            forms,
            of_module,
            &function.steps,
        )),
        Rule::Arity => Ok(breaking_step(StepRule::Misnamed, forms, of_module, &function.steps)),
        Rule::Unbound => unbound_step(alloc, function),
        Rule::Limit => Ok(late_step(&function.steps)),
        Rule::Duplicate => Ok(None),
        Rule::TracerTaken => Ok(None),
    }
}

/// The position of the first command, of those that follow the forms', that breaks the rule.
fn command_position<A: Allocator>(
    forms: &[Form<A>],
    commands: &[Command<A>],
    rule: Rule,
) -> Option<usize>
    ensures { result ≡ position_with_earlier (breaks_by_command (rule_of rule)) (form_commands forms.now) 1
        (map command_of commands.now) }
{
    match rule {
        Rule::Duplicate => breaking_command(CommandRule::Again, forms, commands),
        Rule::Undeclared => breaking_command(CommandRule::Unmade, forms, commands),
        Rule::TracerTaken => breaking_command(CommandRule::TracerTaken, forms, commands),
        Rule::Limit => breaking_command(CommandRule::Late, forms, commands),
        Rule::NotExported => None,
        Rule::Unbound => None,
        Rule::Arity => None,
    }
}

/// A command at this position of a form, with its number in the control list.
fn numbered_command<A: Allocator>(earlier: &[Form<A>], position: usize) -> FormItem
    ensures { form_item_of result ≡ command_at (length (form_commands earlier.now)) position }
{
    let number = (all_commands(earlier) as usize).saturating_add(position);
    FormItem::NumberedCommand { position, number }
}

/// The step or the command for which a form breaks the rule; none where the form itself breaks it.
fn item_of_form<A: Allocator + Copy>(
    alloc: A,
    forms: &[Form<A>],
    earlier: &[Form<A>],
    form: &Form<A>,
    rule: Rule,
) -> Result<Option<FormItem>, AllocError>
    ensures { IfOk result (λ o. option_map form_item_of o
        ≡ breaking_item_of (map form_of forms.now) (map form_of earlier.now) (form_of form.now) (rule_of rule)) }
{
    match form {
        Form::Function(function) => match step_position(alloc, forms, function, rule)? {
            Some(position) => Ok(Some(FormItem::Step { position })),
            None => Ok(None),
        },
        Form::Process(_) => Ok(None),
        Form::Control(commands) => match command_position(earlier, commands, rule) {
            Some(position) => Ok(Some(numbered_command(earlier, position))),
            None => Ok(None),
        },
    }
}

/// The rule of a fault and the form that breaks it; none of refused memory.
fn broken_rule_of(fault: RuleFault) -> Option<(Rule, usize)>
    ensures { option_map rule_and_form result ≡ broken_of fault }
{
    match fault {
        RuleFault::Duplicate { form } => Some((Rule::Duplicate, form)),
        RuleFault::Undeclared { form } => Some((Rule::Undeclared, form)),
        RuleFault::NotExported { form } => Some((Rule::NotExported, form)),
        RuleFault::Unbound { form } => Some((Rule::Unbound, form)),
        RuleFault::TracerTaken { form } => Some((Rule::TracerTaken, form)),
        RuleFault::Arity { form } => Some((Rule::Arity, form)),
        RuleFault::Limit { form } => Some((Rule::Limit, form)),
        RuleFault::OutOfMemory => None,
    }
}

/// The first step or command for which the form that a fault names breaks its rule. None where the form itself breaks
/// it, and of refused memory.
///
/// # Errors
///
/// AllocError where memory was refused.
pub fn breaking_item<A: Allocator + Copy>(
    alloc: A,
    forms: &[Form<A>],
    fault: RuleFault,
) -> Result<Option<FormItem>, AllocError>
    ensures { IfOk result (λ o. option_map form_item_of o ≡ item_of_fault (map form_of forms.now) (broken_of fault)) }
{
    let Some((rule, number)) = broken_rule_of(fault) else {
        return Ok(None);
    };
    let index = number.saturating_sub(1);
    if index < forms.len() {
        item_of_form(alloc, forms, &forms[..index], &forms[index], rule)
    } else {
        Ok(None)
    }
}
