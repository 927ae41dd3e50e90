// The functions that forms declare.
ghost use Rattle.std.specs.Prelude.{◌≡◌, map};
ghost use Rattle.std.specs.List.{list_any};
ghost use Rattle.def_term.specs.Names.{mfa_from};
ghost use Rattle.def_script.specs.Rules.{declares_one, is_declared as is_declared_in};
ghost use Rattle.def_script.specs.Rules.{is_declared_at_all as is_declared_at_all_in, is_internal as is_internal_in};
ghost use Rattle.tn_script.specs.Views.{function_of, form_of};
ghost use Rattle.tn_program.specs.FunctionNames.{is_it, is_named_so};
ghost use Rattle.tn_program.specs.Lookups.{wanted_mfa, passes_as};

use std::alloc::Allocator;
use tn_script::{Form, Function};

/// The function that is looked for.
#[derive(Clone, Copy)]
struct FunctionKey<'a> {
    home: &'a str,
    name: &'a str,
    arity: usize,
}

/// Which functions pass for it: those with that number of parameters, all of its module and name, or
/// those with that number of parameters that aren't exported.
#[derive(Clone, Copy)]
enum NameMatch {
    Exact,
    Named,
    Internal,
}

/// Whether it is the function of this module, name and number of parameters.
fn is_same<A: Allocator>(function: &Function<A>, of_module: &str, name: &str, arity: usize) -> bool
    ensures { result ≡ is_it (mfa_from of_module.now name.now arity) (function_of function.now) }
{
    function.module.text() == of_module
        && function.name.text() == name
        && function.params.len() == arity
}

/// Whether it is a function of this module and name.
fn is_named<A: Allocator>(function: &Function<A>, of_module: &str, name: &str) -> bool
    ensures { result ≡ is_named_so of_module.now name.now (function_of function.now) }
{
    function.module.text() == of_module && function.name.text() == name
}

/// Whether it is a function that is looked for.
fn is_sought<A: Allocator>(
    function: &Function<A>,
    sought: NameMatch,
    wanted: &FunctionKey<'_>,
) -> bool
    ensures { result ≡ passes_as sought (wanted_mfa wanted.now) (function_of function.now) }
{
    match sought {
        NameMatch::Exact => is_same(function, wanted.home, wanted.name, wanted.arity),
        NameMatch::Named => is_named(function, wanted.home, wanted.name),
        NameMatch::Internal => is_same(function, wanted.home, wanted.name, wanted.arity)
            && !function.exported,
    }
}

/// Whether the form declares a function that is looked for.
fn declares<A: Allocator>(form: &Form<A>, sought: NameMatch, wanted: &FunctionKey<'_>) -> bool
    ensures { result ≡ declares_one (passes_as sought (wanted_mfa wanted.now)) (form_of form.now) }
{
    match form {
        Form::Function(function) => is_sought(function, sought, wanted),
        _ => false,
    }
}

/// Whether one of the forms declares a function that is looked for.
fn any_declares<A: Allocator>(
    forms: &[Form<A>],
    sought: NameMatch,
    wanted: &FunctionKey<'_>,
) -> bool
    ensures { result ≡ list_any (declares_one (passes_as sought (wanted_mfa wanted.now))) (map form_of forms.now) }
{
    for form in forms {
        if declares(form, sought, wanted) {
            return true;
        }
    }
    false
}

/// Whether one of the forms declares the function.
pub fn is_declared<A: Allocator>(
    forms: &[Form<A>],
    of_module: &str,
    name: &str,
    arity: usize,
) -> bool
    ensures { result ≡ is_declared_in (map form_of forms.now) (mfa_from of_module.now name.now arity) }
{
    any_declares(
        forms,
        NameMatch::Exact,
        &FunctionKey {
            home: of_module,
            name,
            arity,
        },
    )
}

/// Whether one of the forms declares the function with any number of parameters.
pub fn is_declared_at_all<A: Allocator>(
    forms: &[Form<A>],
    of_module: &str,
    name: &str,
    arity: usize,
) -> bool
    ensures { result ≡ is_declared_at_all_in (map form_of forms.now) (mfa_from of_module.now name.now arity) }
{
    any_declares(
        forms,
        NameMatch::Named,
        &FunctionKey {
            home: of_module,
            name,
            arity,
        },
    )
}

/// Whether one of the forms declares the function, and not as exported.
pub fn is_internal<A: Allocator>(
    forms: &[Form<A>],
    of_module: &str,
    name: &str,
    arity: usize,
) -> bool
    ensures { result ≡ is_internal_in (map form_of forms.now) (mfa_from of_module.now name.now arity) }
{
    any_declares(
        forms,
        NameMatch::Internal,
        &FunctionKey {
            home: of_module,
            name,
            arity,
        },
    )
}
