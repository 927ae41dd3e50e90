// Whether functions make or remove links.
ghost use Rattle.std.specs.Prelude.{◌≡◌, ◌||◌, map};
ghost use Rattle.std.specs.List.{list_any};
ghost use Rattle.def_independence.specs.Alone.{have_link, have_unlink};
ghost use Rattle.tn_independence.specs.Links.{changes_link, has_changes};
ghost use Rattle.tn_script.specs.Views.{step_of, function_of, functions_of};

use std::alloc::Allocator;
use tn_script::{Function, Step};

/// Whether the step makes or removes a link.
fn changes_link<A: Allocator>(step: &Step<A>) -> bool
    ensures { result ≡ changes_link (step_of step.now) }
{
    match step {
        Step::Send { .. } => false,
        Step::Receive { .. } => false,
        Step::CallRemote { .. } => false,
        Step::CallLocal { .. } => false,
        Step::Catch { .. } => false,
        Step::Spawn { .. } => false,
        Step::Link(_) => true,
        Step::Unlink(_) => true,
        Step::Return(_) => false,
        Step::Raise { .. } => false,
    }
}

/// Whether one of the steps does.
fn one_changes_link<A: Allocator>(steps: &Vec<Step<A>, A>) -> bool
    ensures { result ≡ list_any changes_link (map step_of steps.now.items) }
{
    for i in 0..steps.len() {
        if changes_link(&steps[i]) {
            return true;
        }
    }
    false
}

/// Whether one of the functions has such a step.
fn have_changes<A: Allocator>(functions: &[Function<A>]) -> bool
    ensures { result ≡ list_any has_changes (map function_of functions.now) }
{
    for function in functions {
        if one_changes_link(&function.steps) {
            return true;
        }
    }
    false
}

/// Whether one of the functions makes or removes a link.
pub fn change_links<A: Allocator>(functions: &[Function<A>]) -> bool
    ensures { result ≡ (have_link (functions_of functions.now) || have_unlink (functions_of functions.now)) }
{
    have_changes(functions)
}
