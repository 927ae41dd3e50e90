// Of functions that a form names and that no form declares, the declared one that was probably meant.
ghost use Rattle.std.specs.Prelude.{◌≡◌, map};
ghost use Rattle.std.specs.Option.{option_map};
ghost use Rattle.def_script.specs.Exports.{visible};
ghost use Rattle.def_script.specs.Program.{mfa_of};
ghost use Rattle.def_script.specs.Rules.{form_functions, function_of_form};
ghost use Rattle.def_explain.specs.NearestFunctions.{first_function, nearest_in_module};
ghost use Rattle.def_wording.specs.RuleTexts.{nearest_declared};
ghost use Rattle.tn_script.specs.Views.{form_of, function_of};
ghost use Rattle.tn_refusal.specs.RuleViews.{callee_seen, is_alike};

use crate::callee::{Callee, declared_by};
use std::alloc::Allocator;
use tn_near_name::is_near;
use tn_script::{Form, Function};

/// In what a declared function is like one that is named.
#[derive(Clone, Copy)]
pub enum Likeness {
    /// In its module and its name.
    Both,
    /// In its name.
    Name,
    /// In its module, with a name that is near.
    NearName,
    /// In its module.
    Module,
}

/// Whether it is so like it.
fn is_alike<A: Allocator>(
    function: &Function<A>,
    likeness: Likeness,
    callee: &Callee<'_, A>,
) -> bool
    ensures { result ≡ is_alike likeness (callee_seen callee.now) (mfa_of (function_of function.now)) }
{
    let has_module = callee.home.text() == function.module.text();
    let has_name = callee.name.text() == function.name.text();
    match likeness {
        Likeness::Both => has_module && has_name,
        Likeness::Name => has_name,
        Likeness::NearName => has_module && is_near(callee.name.text(), function.name.text()),
        Likeness::Module => has_module,
    }
}

/// The function that the form declares, where it is so like it.
fn alike_in<'a, A: Allocator>(
    form: &'a Form<A>,
    likeness: Likeness,
    callee: &Callee<'_, A>,
) -> Option<Callee<'a, A>>
    ensures { option_map callee_seen result ≡ first_function (is_alike likeness (callee_seen callee.now))
        (visible (function_of_form (form_of form.now))) }
{
    match form {
        Form::Function(function) => {
            if is_alike(function, likeness, callee) {
                Some(declared_by(function))
            } else {
                None
            }
        }
        _ => None,
    }
}

/// The first function that the forms declare and that is so like it.
fn first_alike<'a, A: Allocator>(
    forms: &'a [Form<A>],
    likeness: Likeness,
    callee: &Callee<'_, A>,
) -> Option<Callee<'a, A>>
    ensures { option_map callee_seen result ≡ first_function (is_alike likeness (callee_seen callee.now))
        (visible (form_functions (map form_of forms.now))) }
{
    for i in 0..forms.len() {
        let form = &forms[i];
        match alike_in(form, likeness, callee) {
            Some(found) => return Some(found),
            None => {}
        }
    }
    None
}

/// The first of its module whose name is near, else the first of its module.
fn nearest_in_module<'a, A: Allocator>(
    forms: &'a [Form<A>],
    callee: &Callee<'_, A>,
) -> Option<Callee<'a, A>>
    ensures { option_map callee_seen result ≡ nearest_in_module (callee_seen callee.now).module_name
        (callee_seen callee.now).function_name (visible (form_functions (map form_of forms.now))) }
{
    if let Some(found) = first_alike(forms, Likeness::NearName, callee) {
        return Some(found);
    }
    first_alike(forms, Likeness::Module, callee)
}

/// The first with its module and name, else with its name, else the nearest of its module.
pub fn nearest_declared<'a, A: Allocator>(
    forms: &'a [Form<A>],
    callee: &Callee<'_, A>,
) -> Option<Callee<'a, A>>
    ensures { option_map callee_seen result ≡ nearest_declared (map form_of forms.now) (callee_seen callee.now) }
{
    if let Some(found) = first_alike(forms, Likeness::Both, callee) {
        return Some(found);
    }
    if let Some(found) = first_alike(forms, Likeness::Name, callee) {
        return Some(found);
    }
    nearest_in_module(forms, callee)
}
