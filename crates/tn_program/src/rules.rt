// The static rules, each in a function, and the first form that breaks one.
ghost use Rattle.std.specs.Prelude.{◌≡◌, IfOk, map, length, nat_le, nat_lt};
ghost use Rattle.std.specs.List.{list_any, count_by};
ghost use Rattle.std.specs.Option.{option_map};
ghost use Rattle.def_term.specs.Names.{mfa_from};
ghost use Rattle.def_script.specs.Limits.{FUNCTIONS as function_limit, STEPS as step_limit};
ghost use Rattle.def_script.specs.Limits.{INITIAL_PROCESSES as process_limit};
ghost use Rattle.def_script.specs.Rules.{is_function, is_process};
ghost use Rattle.def_script.specs.Rules.{on_some, named_by, named_with_module, is_misnamed as is_misnamed_in};
ghost use Rattle.def_script.specs.Rules.{is_internal as is_internal_in, breaks_duplicate, breaks_undeclared};
ghost use Rattle.def_script.specs.Rules.{breaks_not_exported, breaks_unbound, breaks_tracer_taken, breaks_arity};
ghost use Rattle.def_script.specs.Rules.{breaks_limit};
ghost use Rattle.tn_script.specs.Views.{step_of, form_of};
ghost use Rattle.tn_program.specs.Declarations.{is_unnamed, step_breaks, rule_broken_in};
ghost use Rattle.tn_program.specs.Commands.{passes_commands, passes_sessions};
ghost use Rattle.tn_program.specs.Faults.{rule_of, ObeysRules};

use crate::counts::{
    all_commands, all_creations, creation_total, function_total, holds_past, process_total,
};
use crate::fault::{Rule, RuleFault, fault_in};
use crate::lookup::{is_declared, is_declared_at_all, is_internal};
use crate::session_rules::{CommandRule, SESSIONS, any_breaks};
use crate::variables::{has_variable, is_unbound};
use std::alloc::{AllocError, Allocator};
use tn_flags::Command;
use tn_script::{Form, Function, MAX_COMMANDS, MAX_STEPS, Step};

/// The greatest number of functions.
const FUNCTIONS: u64 = 64;

/// The greatest number of initial processes.
const INITIAL_PROCESSES: u64 = 16;

/// The rules on a step.
#[derive(Clone, Copy)]
pub enum StepRule {
    /// It names a function that no form declares with any number of parameters.
    Undeclared,
    /// It spawns an internal function, or calls one with the module.
    Internal,
    /// It names a function that is declared, but not with that number of arguments.
    Misnamed,
}

/// Whether the step names a function that no form declares with any number of parameters.
fn step_undeclared<A: Allocator>(forms: &[Form<A>], of_module: &str, step: &Step<A>) -> bool
    ensures { result ≡ on_some (is_unnamed (map form_of forms.now)) (named_by of_module.now (step_of step.now)) }
{
    match step {
        Step::CallRemote {
            module,
            name,
            args,
            ..
        } => !is_declared_at_all(forms, module.text(), name.text(), args.terms.len()),
        Step::CallLocal { name, args, .. } => !is_declared_at_all(
            forms,
            of_module,
            name.text(),
            args.terms.len(),
        ),
        Step::Catch {
            module,
            name,
            args,
            ..
        } => !is_declared_at_all(forms, module.text(), name.text(), args.terms.len()),
        Step::Spawn {
            module,
            name,
            args,
            ..
        } => !is_declared_at_all(forms, module.text(), name.text(), args.terms.len()),
        _ => false,
    }
}

/// Whether the step spawns an internal function, or calls one with the module.
fn step_internal<A: Allocator>(forms: &[Form<A>], step: &Step<A>) -> bool
    ensures { result ≡ on_some (is_internal_in (map form_of forms.now)) (named_with_module (step_of step.now)) }
{
    match step {
        Step::CallRemote {
            module,
            name,
            args,
            ..
        } => is_internal(forms, module.text(), name.text(), args.terms.len()),
        Step::Catch {
            module,
            name,
            args,
            ..
        } => is_internal(forms, module.text(), name.text(), args.terms.len()),
        Step::Spawn {
            module,
            name,
            args,
            ..
        } => is_internal(forms, module.text(), name.text(), args.terms.len()),
        _ => false,
    }
}

/// Whether a function of this module and name is declared, but not with that number of parameters.
fn is_misnamed<A: Allocator>(forms: &[Form<A>], of_module: &str, name: &str, arity: usize) -> bool
    ensures { result ≡ is_misnamed_in (map form_of forms.now) (mfa_from of_module.now name.now arity) }
{
    is_declared_at_all(forms, of_module, name, arity) && !is_declared(forms, of_module, name, arity)
}

/// Whether the step names a function that is declared, but not with that number of arguments.
fn step_misnamed<A: Allocator>(forms: &[Form<A>], of_module: &str, step: &Step<A>) -> bool
    ensures { result ≡ on_some (is_misnamed_in (map form_of forms.now)) (named_by of_module.now (step_of step.now)) }
{
    match step {
        Step::CallRemote {
            module,
            name,
            args,
            ..
        } => is_misnamed(forms, module.text(), name.text(), args.terms.len()),
        Step::CallLocal { name, args, .. } => is_misnamed(
            forms,
            of_module,
            name.text(),
            args.terms.len(),
        ),
        Step::Catch {
            module,
            name,
            args,
            ..
        } => is_misnamed(forms, module.text(), name.text(), args.terms.len()),
        Step::Spawn {
            module,
            name,
            args,
            ..
        } => is_misnamed(forms, module.text(), name.text(), args.terms.len()),
        _ => false,
    }
}

/// Whether the step breaks the rule.
pub fn is_against<A: Allocator>(
    rule: StepRule,
    forms: &[Form<A>],
    of_module: &str,
    step: &Step<A>,
) -> bool
    ensures { result ≡ step_breaks rule (map form_of forms.now) of_module.now (step_of step.now) }
{
    match rule {
        StepRule::Undeclared => step_undeclared(forms, of_module, step),
        StepRule::Internal => step_internal(forms, step),
        StepRule::Misnamed => step_misnamed(forms, of_module, step),
    }
}

/// Whether one of the steps breaks the rule.
fn any_against<A: Allocator>(
    rule: StepRule,
    forms: &[Form<A>],
    of_module: &str,
    steps: &[Step<A>],
) -> bool
    ensures { result ≡ list_any (step_breaks rule (map form_of forms.now) of_module.now) (map step_of steps.now) }
{
    for step in steps {
        if is_against(rule, forms, of_module, step) {
            return true;
        }
    }
    false
}

/// Whether the form declares a function that an earlier form declares, or creates a session that an
/// earlier command creates.
fn is_duplicate<A: Allocator>(earlier: &[Form<A>], form: &Form<A>) -> bool
    ensures { result ≡ breaks_duplicate (map form_of earlier.now) (form_of form.now) }
{
    match form {
        Form::Function(function) => is_declared(
            earlier,
            function.module.text(),
            function.name.text(),
            function.params.as_slice().len(),
        ),
        Form::Process(_) => false,
        Form::Control(commands) => any_breaks(CommandRule::Again, earlier, commands),
    }
}

/// Whether the form names a function that no form declares with any number of parameters, or has a
/// command on a session that no earlier command creates.
fn is_undeclared<A: Allocator>(forms: &[Form<A>], earlier: &[Form<A>], form: &Form<A>) -> bool
    ensures { result ≡ breaks_undeclared (map form_of forms.now) (map form_of earlier.now) (form_of form.now) }
{
    match form {
        Form::Function(function) => any_against(
            StepRule::Undeclared,
            forms,
            function.module.text(),
            &function.steps,
        ),
        Form::Process(entry) => !is_declared_at_all(
            forms,
            entry.module.text(),
            entry.name.text(),
            entry.args.terms.len(),
        ),
        Form::Control(commands) => any_breaks(CommandRule::Unmade, earlier, commands),
    }
}

/// Whether the form spawns, starts or calls with the module an internal function.
fn is_not_exported<A: Allocator>(forms: &[Form<A>], form: &Form<A>) -> bool
    ensures { result ≡ breaks_not_exported (map form_of forms.now) (form_of form.now) }
{
    match form {
        Form::Function(function) => any_against(
            StepRule::Internal,
            forms,
            function.module.text(),
            &function.steps,
        ),
        Form::Process(entry) => is_internal(
            forms,
            entry.module.text(),
            entry.name.text(),
            entry.args.terms.len(),
        ),
        Form::Control(_) => false,
    }
}

/// Whether a variable stands in the form where it isn't bound.
fn has_unbound_variable<A: Allocator + Copy>(alloc: A, form: &Form<A>) -> Result<bool, AllocError>
    ensures { IfOk result (λ b. b ≡ breaks_unbound (form_of form.now)) }
{
    match form {
        Form::Function(function) => is_unbound(alloc, function),
        Form::Process(entry) => Ok(has_variable(alloc, &entry.args.terms)),
        Form::Control(_) => Ok(false),
    }
}

/// Whether the form creates a session with a tracer that an earlier creation has.
fn is_tracer_taken<A: Allocator>(earlier: &[Form<A>], form: &Form<A>) -> bool
    ensures { result ≡ breaks_tracer_taken (map form_of earlier.now) (form_of form.now) }
{
    match form {
        Form::Control(commands) => any_breaks(CommandRule::TracerTaken, earlier, commands),
        _ => false,
    }
}

/// Whether the form names a declared function with another number of arguments.
fn has_wrong_arity<A: Allocator>(forms: &[Form<A>], form: &Form<A>) -> bool
    ensures { result ≡ breaks_arity (map form_of forms.now) (form_of form.now) }
{
    match form {
        Form::Function(function) => any_against(
            StepRule::Misnamed,
            forms,
            function.module.text(),
            &function.steps,
        ),
        Form::Process(entry) => is_misnamed(
            forms,
            entry.module.text(),
            entry.name.text(),
            entry.args.terms.len(),
        ),
        Form::Control(_) => false,
    }
}

/// Whether as many functions are declared as may be.
fn is_full<A: Allocator>(earlier: &[Form<A>]) -> bool
    ensures { result ≡ nat_le function_limit (count_by is_function (map form_of earlier.now)) }
{
    FUNCTIONS <= function_total(earlier)
}

/// Whether there are more steps than a function may have.
pub fn is_long<A: Allocator>(steps: &[Step<A>]) -> bool
    ensures { result ≡ nat_lt step_limit (length (map step_of steps.now)) }
{
    MAX_STEPS < steps.len()
}

/// Whether as many processes are started as may be.
fn is_crowded<A: Allocator>(earlier: &[Form<A>]) -> bool
    ensures { result ≡ nat_le process_limit (count_by is_process (map form_of earlier.now)) }
{
    INITIAL_PROCESSES <= process_total(earlier)
}

/// Whether one of the commands, which follow those of the forms, is past the greatest number of them.
fn has_late_command<A: Allocator>(earlier: &[Form<A>], commands: &[Command<A>]) -> bool
    ensures { result ≡ passes_commands earlier.now commands.now }
{
    holds_past(
        MAX_COMMANDS as u64,
        all_commands(earlier),
        commands.len() as u64,
    )
}

/// Whether one of the commands, which follow those of the forms, is a creation past the greatest number of them.
fn has_late_creation<A: Allocator>(earlier: &[Form<A>], commands: &[Command<A>]) -> bool
    ensures { result ≡ passes_sessions earlier.now commands.now }
{
    holds_past(SESSIONS, all_creations(earlier), creation_total(commands))
}

/// Whether the form goes past a limit on functions, steps, initial processes, commands or sessions.
fn is_past_limit<A: Allocator>(earlier: &[Form<A>], form: &Form<A>) -> bool
    ensures { result ≡ breaks_limit (map form_of earlier.now) (form_of form.now) }
{
    match form {
        Form::Function(function) => is_full(earlier) || is_long(&function.steps),
        Form::Process(_) => is_crowded(earlier),
        Form::Control(commands) => has_late_command(earlier, commands)
            || has_late_creation(earlier, commands),
    }
}

/// The least of the rules that the form breaks.
fn broken_rule<A: Allocator + Copy>(
    alloc: A,
    forms: &[Form<A>],
    earlier: &[Form<A>],
    form: &Form<A>,
) -> Result<Option<Rule>, AllocError>
    ensures { IfOk result (λ o. option_map rule_of o ≡ rule_broken_in forms.now earlier.now form.now) }
{
    if is_duplicate(earlier, form) {
        return Ok(Some(Rule::Duplicate));
    }
    if is_undeclared(forms, earlier, form) {
        return Ok(Some(Rule::Undeclared));
    }
    if is_not_exported(forms, form) {
        return Ok(Some(Rule::NotExported));
    }
    if has_unbound_variable(alloc, form)? {
        return Ok(Some(Rule::Unbound));
    }
    if is_tracer_taken(earlier, form) {
        return Ok(Some(Rule::TracerTaken));
    }
    if has_wrong_arity(forms, form) {
        return Ok(Some(Rule::Arity));
    }
    if is_past_limit(earlier, form) {
        return Ok(Some(Rule::Limit));
    }
    Ok(None)
}

/// Whether all forms keep all rules; else the lowest-numbered form that breaks one, and the least that it breaks.
pub fn check_rules<A: Allocator + Copy>(alloc: A, forms: &[Form<A>]) -> Result<(), RuleFault>
    ensures { ObeysRules (map form_of forms.now) result }
{
    for i in 0..forms.len() {
        let Ok(broken) = broken_rule(alloc, forms, &forms[..i], &forms[i]) else {
            return Err(RuleFault::OutOfMemory);
        };
        if let Some(rule) = broken {
            return Err(fault_in(rule, i + 1));
        }
    }
    Ok(())
}
