// Of functions that a command asks for and that aren't there, the one that was probably meant.
ghost use Rattle.std.specs.Prelude.{◌≡◌};
ghost use Rattle.def_explain.specs.NearestFunctions.{has_module, has_name, has_both, has_near_name};
ghost use Rattle.def_explain.specs.NearestFunctions.{nearest_in_module, nearest_to, nearest_function};
ghost use Rattle.tn_index.specs.Views.{function_pattern_seen};
ghost use Rattle.tn_command_reason.specs.NearestFunctions.{IsFirstFunction, functions_seen, lent_function};

use std::alloc::Allocator;
use tn_index::FunctionPattern;
use tn_near_name::is_near;
use tn_script::Function;
use tn_term::Atom;

/// The first of the functions with this module and this name.
fn first_of_both<'a, A: Allocator>(
    functions: &'a [Function<A>],
    module: &Atom<A>,
    name: &Atom<A>,
) -> Option<&'a Function<A>>
    ensures { IsFirstFunction (has_both module.now name.now) functions.now result }
{
    for i in 0..functions.len() {
        let function = &functions[i];
        if module.text() == function.module.text() && name.text() == function.name.text() {
            return Some(function);
        }
    }
    None
}

/// The first of the functions with this name.
fn first_of_name<'a, A: Allocator>(
    functions: &'a [Function<A>],
    name: &Atom<A>,
) -> Option<&'a Function<A>>
    ensures { IsFirstFunction (has_name name.now) functions.now result }
{
    for i in 0..functions.len() {
        let function = &functions[i];
        if name.text() == function.name.text() {
            return Some(function);
        }
    }
    None
}

/// The first of the functions of this module.
fn first_of_module<'a, A: Allocator>(
    functions: &'a [Function<A>],
    module: &Atom<A>,
) -> Option<&'a Function<A>>
    ensures { IsFirstFunction (has_module module.now) functions.now result }
{
    for i in 0..functions.len() {
        let function = &functions[i];
        if module.text() == function.module.text() {
            return Some(function);
        }
    }
    None
}

/// The first of the functions of this module whose name is near.
fn first_of_near_name<'a, A: Allocator>(
    functions: &'a [Function<A>],
    module: &Atom<A>,
    name: &Atom<A>,
) -> Option<&'a Function<A>>
    ensures { IsFirstFunction (has_near_name module.now name.now) functions.now result }
{
    for i in 0..functions.len() {
        let function = &functions[i];
        if module.text() == function.module.text() && is_near(name.text(), function.name.text()) {
            return Some(function);
        }
    }
    None
}

/// The first of this module whose name is near, else the first of this module.
fn nearest_in_module<'a, A: Allocator>(
    functions: &'a [Function<A>],
    module: &Atom<A>,
    name: &Atom<A>,
) -> Option<&'a Function<A>>
    ensures { lent_function result ≡ nearest_in_module module.now name.now (functions_seen functions.now) }
{
    if let Some(function) = first_of_near_name(functions, module, name) {
        return Some(function);
    }
    first_of_module(functions, module)
}

/// The first with this module and name, else with this name, else the nearest of this module.
fn nearest_to<'a, A: Allocator>(
    functions: &'a [Function<A>],
    module: &Atom<A>,
    name: &Atom<A>,
) -> Option<&'a Function<A>>
    ensures { lent_function result ≡ nearest_to module.now name.now (functions_seen functions.now) }
{
    if let Some(function) = first_of_both(functions, module, name) {
        return Some(function);
    }
    if let Some(function) = first_of_name(functions, name) {
        return Some(function);
    }
    nearest_in_module(functions, module, name)
}

/// The function that was probably meant by these, of which none is there.
pub(crate) fn nearest_function<'a, A: Allocator>(
    functions: &'a [Function<A>],
    covered: &FunctionPattern<A>,
) -> Option<&'a Function<A>>
    ensures { lent_function result ≡
        nearest_function (function_pattern_seen covered.now) (functions_seen functions.now) }
{
    match covered {
        FunctionPattern::One(one) => nearest_to(functions, &one.module, &one.name),
        FunctionPattern::AnyArity { module, name } => nearest_to(functions, module, name),
        FunctionPattern::WholeModule(_) => None,
        FunctionPattern::Every => None,
    }
}
