// The functions that forms declare and name.
ghost use Rattle.std.specs.Prelude.{◌≡◌, [], ◌++◌, map, OnOk, option_to_list};
ghost use Rattle.std.specs.List.{list_any};
ghost use Rattle.std.specs.Option.{option_map};
ghost use Rattle.def_wording.specs.RuleTexts.{function_text, declared_too, of_name, rule_reason_text};
ghost use Rattle.def_wording.specs.RuleTexts.{name_reason_text, name_hint_text, nearest_declared};
ghost use Rattle.def_explain.specs.ReasonTexts.{meant_text};
ghost use Rattle.def_wording.specs.RuleTexts.{again_at, again_reason, rule_reasons_text, arities_in, arities_text};
ghost use Rattle.def_wording.specs.RuleTexts.{declared_arities, breaks_by_name, name_reason_of, named_reason};
ghost use Rattle.def_wording.specs.RuleTexts.{names_of_step, wrong_name, step_name, step_reason_of, steps_name_reason};
ghost use Rattle.tn_program.specs.FunctionNames.{is_it, is_named_so};
ghost use Rattle.tn_program.specs.Faults.{rule_of};
ghost use Rattle.def_script.specs.Program.{mfa_of, entry_mfa};
ghost use Rattle.def_script.specs.Rules.{declares_one, function_named};
ghost use Rattle.def_script.specs.Rules.{named_by as named_by_step, named_with_module as named_with_module_of};
ghost use Rattle.def_wording.specs.Firsts.{first_with_earlier};
ghost use Rattle.tn_script.specs.Views.{args_of, entry_of, function_of, form_of, step_of};
ghost use Rattle.tn_refusal.specs.RuleViews.{callee_seen, callee_in_step_seen, declares_so};

use crate::nearest::nearest_declared;
use crate::put::{put_atom, put_number};
use std::alloc::{AllocError, Allocator};
use tn_program::Rule;
use tn_script::{Arguments, Entry, Form, Function, Step};
use tn_term::Atom;

/// A function: its module, its name and the number of arguments.
#[derive(Drop)]
pub struct Callee<'a, A: Allocator> {
    pub home: &'a Atom<A>,
    pub name: &'a Atom<A>,
    pub arity: usize,
}

/// How a form may declare a function that is named.
#[derive(Clone, Copy)]
enum DeclarationMatch {
    /// With any number of parameters.
    Named,
    /// With that number of parameters.
    Exact,
    /// With that number of parameters, as internal.
    Internal,
}

/// The function that is declared.
pub fn declared_by<A: Allocator>(function: &Function<A>) -> Callee<'_, A>
    ensures { callee_seen result ≡ mfa_of (function_of function.now) }
{
    Callee {
        home: &function.module,
        name: &function.name,
        arity: function.params.len(),
    }
}

/// Appends words, and a function as `M:F/N`; after an `Err` a part of it may be there.
pub fn put_callee<A: Allocator>(
    words: &[u8],
    callee: &Callee<'_, A>,
    out: &mut Vec<u8, A>,
) -> Result<(), AllocError>
    ensures { OnOk result (out.new.items ≡ out.old.items ++ words.now ++ function_text (callee_seen callee.now)) }
{
    put_atom(words, callee.home, out)?;
    put_atom(b":", callee.name, out)?;
    put_number(b"/", callee.arity, out)
}

/// Whether it has the module and the name.
fn is_named<A: Allocator>(function: &Function<A>, callee: &Callee<'_, A>) -> bool
    ensures { result ≡ is_named_so (callee_seen callee.now).module_name (callee_seen callee.now).function_name
        (function_of function.now) }
{
    function.module.text() == callee.home.text() && function.name.text() == callee.name.text()
}

/// Whether it has the module, the name and the number of parameters.
fn is_same<A: Allocator>(function: &Function<A>, callee: &Callee<'_, A>) -> bool
    ensures { result ≡ is_it (callee_seen callee.now) (function_of function.now) }
{
    function.module.text() == callee.home.text()
        && function.name.text() == callee.name.text()
        && function.params.len() == callee.arity
}

/// Whether this declares it so.
fn declares<A: Allocator>(
    function: &Function<A>,
    how: DeclarationMatch,
    callee: &Callee<'_, A>,
) -> bool
    ensures { result ≡ declares_so how (callee_seen callee.now) (function_of function.now) }
{
    match how {
        DeclarationMatch::Named => is_named(function, callee),
        DeclarationMatch::Exact => is_same(function, callee),
        DeclarationMatch::Internal => is_same(function, callee) && !function.exported,
    }
}

/// Whether the form declares it so.
fn form_declares<A: Allocator>(
    form: &Form<A>,
    how: DeclarationMatch,
    callee: &Callee<'_, A>,
) -> bool
    ensures { result ≡ declares_one (declares_so how (callee_seen callee.now)) (form_of form.now) }
{
    match form {
        Form::Function(function) => declares(function, how, callee),
        _ => false,
    }
}

/// Whether one of the forms declares it so.
fn is_declared<A: Allocator>(
    forms: &[Form<A>],
    how: DeclarationMatch,
    callee: &Callee<'_, A>,
) -> bool
    ensures { result ≡ list_any (declares_one (declares_so how (callee_seen callee.now))) (map form_of forms.now) }
{
    for form in forms {
        if form_declares(form, how, callee) {
            return true;
        }
    }
    false
}

/// Whether naming it breaks the rule.
fn breaks<A: Allocator>(rule: Rule, forms: &[Form<A>], callee: &Callee<'_, A>) -> bool
    ensures { result ≡ breaks_by_name (rule_of rule) (map form_of forms.now) (callee_seen callee.now) }
{
    match rule {
        Rule::Undeclared => !is_declared(forms, DeclarationMatch::Named, callee),
        Rule::NotExported => is_declared(forms, DeclarationMatch::Internal, callee),
        Rule::Arity => {
            is_declared(forms, DeclarationMatch::Named, callee)
                && !is_declared(forms, DeclarationMatch::Exact, callee)
        }
        Rule::Duplicate => false,
        Rule::Unbound => false,
        Rule::TracerTaken => false,
        Rule::Limit => false,
    }
}

/// A function that is named with its arguments.
fn callee_named<'a, A: Allocator>(
    home: &'a Atom<A>,
    name: &'a Atom<A>,
    args: &'a Arguments<A>,
) -> Callee<'a, A>
    ensures { callee_seen result ≡ function_named home.now name.now (args_of args.now) }
{
    Callee {
        home,
        name,
        arity: args.terms.len(),
    }
}

/// What a step spawns, or calls with the module.
fn named_with_module<A: Allocator>(step: &Step<A>) -> Option<Callee<'_, A>>
    ensures { option_map callee_seen result ≡ named_with_module_of (step_of step.now) }
{
    match step {
        Step::CallRemote {
            module,
            name,
            args,
            ..
        } => Some(callee_named(module, name, args)),
        Step::Catch {
            module,
            name,
            args,
            ..
        } => Some(callee_named(module, name, args)),
        Step::Spawn {
            module,
            name,
            args,
            ..
        } => Some(callee_named(module, name, args)),
        _ => None,
    }
}

/// What a step of a function of this module spawns or calls.
fn named_by<'a, A: Allocator>(home: &'a Atom<A>, step: &'a Step<A>) -> Option<Callee<'a, A>>
    ensures { option_map callee_seen result ≡ named_by_step home.now (step_of step.now) }
{
    match step {
        Step::CallLocal { name, args, .. } => Some(callee_named(home, name, args)),
        Step::CallRemote {
            module,
            name,
            args,
            ..
        } => Some(callee_named(module, name, args)),
        Step::Catch {
            module,
            name,
            args,
            ..
        } => Some(callee_named(module, name, args)),
        Step::Spawn {
            module,
            name,
            args,
            ..
        } => Some(callee_named(module, name, args)),
        _ => None,
    }
}

/// What a step names; of a call without the module nothing, where only names with the module count.
fn callee_of<'a, A: Allocator>(
    rule: Rule,
    home: &'a Atom<A>,
    step: &'a Step<A>,
) -> Option<Callee<'a, A>>
    ensures { option_map callee_seen result ≡ names_of_step (rule_of rule) home.now (step_of step.now) }
{
    match rule {
        Rule::NotExported => named_with_module(step),
        Rule::Undeclared => named_by(home, step),
        Rule::Arity => named_by(home, step),
        Rule::Duplicate => named_by(home, step),
        Rule::Unbound => named_by(home, step),
        Rule::TracerTaken => named_by(home, step),
        Rule::Limit => named_by(home, step),
    }
}

/// What a step names, where that breaks the rule.
fn wrong_callee<'a, A: Allocator>(
    rule: Rule,
    forms: &[Form<A>],
    home: &'a Atom<A>,
    step: &'a Step<A>,
) -> Option<Callee<'a, A>>
    ensures { option_map callee_seen result ≡ wrong_name (rule_of rule) (map form_of forms.now)
        (names_of_step (rule_of rule) home.now (step_of step.now)) }
{
    match callee_of(rule, home, step) {
        Some(callee) => {
            if breaks(rule, forms, &callee) {
                Some(callee)
            } else {
                None
            }
        }
        None => None,
    }
}

/// A function that a step names, and the number of the step, from 1.
#[derive(Drop)]
struct CalleeInStep<'a, A: Allocator> {
    callee: Callee<'a, A>,
    step: usize,
}

/// The first function that a step names and that breaks the rule.
fn first_wrong<'a, A: Allocator>(
    rule: Rule,
    forms: &[Form<A>],
    home: &'a Atom<A>,
    steps: &'a [Step<A>],
) -> Option<CalleeInStep<'a, A>>
    ensures { option_map callee_in_step_seen result ≡ first_with_earlier
        (step_name (rule_of rule) (map form_of forms.now) home.now) [] (map step_of steps.now) }
{
    for i in 0..steps.len() {
        let step = &steps[i];
        match wrong_callee(rule, forms, home, step) {
            Some(callee) => {
                return Some(CalleeInStep {
                    callee,
                    step: i + 1,
                });
            }
            None => {}
        }
    }
    None
}

/// With how many parameters the form declares the module and the name, where it does.
fn arity_in<A: Allocator>(form: &Form<A>, callee: &Callee<'_, A>) -> Option<usize>
    ensures { option_to_list result ≡ arities_in (form_of form.now) (callee_seen callee.now) }
{
    match form {
        Form::Function(function) => {
            if is_named(function, callee) {
                Some(function.params.len())
            } else {
                None
            }
        }
        _ => None,
    }
}

/// Appends the arities with which the forms declare it, with `or` between them; after an `Err` a part of it may be
/// there.
fn put_arities<A: Allocator>(
    forms: &[Form<A>],
    callee: &Callee<'_, A>,
    out: &mut Vec<u8, A>,
) -> Result<(), AllocError>
    ensures { OnOk result (out.new.items ≡ out.old.items
        ++ arities_text (declared_arities (map form_of forms.now) (callee_seen callee.now))) }
{
    let mut between: &[u8] = b" is declared with the arity ";
    for form in forms {
        match arity_in(form, callee) {
            Some(arity) => {
                put_number(between, arity, out)?;
                between = b" or ";
            }
            None => {}
        }
    }
    out.extend_from_slice(b" alone")
}

/// Appends a function that is named, and why that breaks the rule; after an `Err` a part of it may be there.
fn put_wrong<A: Allocator>(
    rule: Rule,
    forms: &[Form<A>],
    callee: &Callee<'_, A>,
    out: &mut Vec<u8, A>,
) -> Result<(), AllocError>
    ensures { OnOk result (out.new.items ≡ out.old.items ++ name_reason_text
        (name_reason_of (rule_of rule) (map form_of forms.now) (callee_seen callee.now))) }
{
    put_callee(b": function ", callee, out)?;
    match rule {
        Rule::NotExported => out.extend_from_slice(b" is internal"),
        Rule::Arity => put_arities(forms, callee, out),
        Rule::Duplicate => Ok(()),
        Rule::Undeclared => Ok(()),
        Rule::Unbound => Ok(()),
        Rule::TracerTaken => Ok(()),
        Rule::Limit => Ok(()),
    }
}

/// Appends that this function is probably meant, where there is one; after an `Err` a part of it may be there.
fn put_meant<A: Allocator>(
    meant: &Option<Callee<'_, A>>,
    out: &mut Vec<u8, A>,
) -> Result<(), AllocError>
    ensures { OnOk result (out.new.items ≡ out.old.items ++ meant_text (option_map callee_seen meant.now)) }
{
    match meant {
        Some(callee) => {
            put_callee(b"; is ", callee, out)?;
            out.extend_from_slice(b" meant?")
        }
        None => Ok(()),
    }
}

/// Appends which of the declared functions is probably meant; after an `Err` a part of it may be there.
fn put_nearest<A: Allocator>(
    forms: &[Form<A>],
    callee: &Callee<'_, A>,
    out: &mut Vec<u8, A>,
) -> Result<(), AllocError>
    ensures { OnOk result (out.new.items ≡ out.old.items
        ++ meant_text (nearest_declared (map form_of forms.now) (callee_seen callee.now))) }
{
    put_meant(&nearest_declared(forms, callee), out)
}

/// Appends which function is probably meant by one that no form declares; after an `Err` a part of it may be there.
fn put_hint<A: Allocator>(
    rule: Rule,
    forms: &[Form<A>],
    callee: &Callee<'_, A>,
    out: &mut Vec<u8, A>,
) -> Result<(), AllocError>
    ensures { OnOk result (out.new.items ≡ out.old.items ++ name_hint_text
        (name_reason_of (rule_of rule) (map form_of forms.now) (callee_seen callee.now))) }
{
    match rule {
        Rule::NotExported => Ok(()),
        Rule::Arity => Ok(()),
        Rule::Duplicate => put_nearest(forms, callee, out),
        Rule::Undeclared => put_nearest(forms, callee, out),
        Rule::Unbound => put_nearest(forms, callee, out),
        Rule::TracerTaken => put_nearest(forms, callee, out),
        Rule::Limit => put_nearest(forms, callee, out),
    }
}

/// Appends a function that a step names, and why that breaks the rule; after an `Err` a part of it may be there.
fn put_wrong_in_step<A: Allocator>(
    rule: Rule,
    forms: &[Form<A>],
    wrong: &CalleeInStep<'_, A>,
    out: &mut Vec<u8, A>,
) -> Result<(), AllocError>
    ensures { OnOk result (out.new.items ≡ out.old.items ++ rule_reason_text
        (step_reason_of (rule_of rule) (map form_of forms.now) (callee_in_step_seen wrong.now))) }
{
    put_wrong(rule, forms, &wrong.callee, out)?;
    put_number(b", in step ", wrong.step, out)?;
    put_hint(rule, forms, &wrong.callee, out)
}

/// Appends the first function that a step names and that breaks the rule, and in which step; after an `Err` a part of
/// it may be there.
pub fn put_named<A: Allocator>(
    rule: Rule,
    forms: &[Form<A>],
    function: &Function<A>,
    out: &mut Vec<u8, A>,
) -> Result<(), AllocError>
    ensures { OnOk result (out.new.items ≡ out.old.items ++ rule_reasons_text
        (steps_name_reason (rule_of rule) (map form_of forms.now) (function_of function.now))) }
{
    match first_wrong(rule, forms, &function.module, &function.steps) {
        Some(wrong) => put_wrong_in_step(rule, forms, &wrong, out),
        None => Ok(()),
    }
}

/// The same of a function that a process starts with.
fn put_wrong_start<A: Allocator>(
    rule: Rule,
    forms: &[Form<A>],
    callee: &Callee<'_, A>,
    out: &mut Vec<u8, A>,
) -> Result<(), AllocError>
    ensures { OnOk result (out.new.items ≡ out.old.items ++ rule_reason_text
        (of_name (name_reason_of (rule_of rule) (map form_of forms.now) (callee_seen callee.now)))) }
{
    put_wrong(rule, forms, callee, out)?;
    put_hint(rule, forms, callee, out)
}

/// Appends the function that a process starts with, and why that breaks the rule; after an `Err` a part of it may be
/// there.
pub fn put_started<A: Allocator>(
    rule: Rule,
    forms: &[Form<A>],
    entry: &Entry<A>,
    out: &mut Vec<u8, A>,
) -> Result<(), AllocError>
    ensures { OnOk result (out.new.items ≡ out.old.items ++ rule_reasons_text
        (named_reason (rule_of rule) (map form_of forms.now) (entry_mfa (entry_of entry.now)))) }
{
    let callee = callee_named(&entry.module, &entry.name, &entry.args);
    if breaks(rule, forms, &callee) {
        put_wrong_start(rule, forms, &callee, out)
    } else {
        Ok(())
    }
}

/// Appends a function, and the number of a form that declares it too; after an `Err` a part of it may be there.
fn put_declared_too<A: Allocator>(
    callee: &Callee<'_, A>,
    form: usize,
    out: &mut Vec<u8, A>,
) -> Result<(), AllocError>
    ensures { OnOk result (out.new.items
        ≡ out.old.items ++ rule_reason_text (declared_too (callee_seen callee.now) form)) }
{
    put_callee(b": function ", callee, out)?;
    put_number(b", in form ", form, out)?;
    out.extend_from_slice(b" too")
}

/// The number of the first of the forms that declares it, from 1.
fn declaring_form<A: Allocator>(earlier: &[Form<A>], callee: &Callee<'_, A>) -> Option<usize>
    ensures { result ≡ first_with_earlier (again_at (callee_seen callee.now)) [] (map form_of earlier.now) }
{
    for i in 0..earlier.len() {
        let form = &earlier[i];
        if form_declares(form, DeclarationMatch::Exact, callee) {
            return Some(i + 1);
        }
    }
    None
}

/// Appends the function, where an earlier form declares it too; after an `Err` a part of it may be there.
pub fn put_again<A: Allocator>(
    earlier: &[Form<A>],
    function: &Function<A>,
    out: &mut Vec<u8, A>,
) -> Result<(), AllocError>
    ensures { OnOk result (out.new.items ≡ out.old.items
        ++ rule_reasons_text (again_reason (mfa_of (function_of function.now)) (map form_of earlier.now))) }
{
    let callee = declared_by(function);
    match declaring_form(earlier, &callee) {
        Some(form) => put_declared_too(&callee, form, out),
        None => Ok(()),
    }
}
