// Whether specifications act on their own process alone.
ghost use Rattle.std.specs.Prelude.{◌≡◌, reverse, slice_get};
ghost use Rattle.std.specs.Option.{option_map};
ghost use Rattle.def_independence.specs.OwnEffects.{count_exprs, names_no_process, acts_on_self, act_on_self};
ghost use Rattle.def_independence.specs.OwnEffects.{clauses_act_on_self, setting_acts_on_self};
ghost use Rattle.def_independence.specs.OwnEffects.{functions_act_on_self, session_acts_on_self};
ghost use Rattle.tn_spec.specs.Views.{action_of, expr_seen, exprs_seen, clause_list};
ghost use Rattle.tn_session.specs.Looks.{look_seen, look_setting, parts_of};
ghost use Rattle.tn_independence.specs.OwnSettings.{acts_by};

use std::alloc::Allocator;
use tn_index::Setting;
use tn_session::Look;
use tn_spec::{Action, Clause, Expr, Spec};

/// Whether an action with so many arguments names no process, so that it is on the own one.
fn names_no_process(action: Action, count: usize) -> bool
    ensures { result ≡ names_no_process (action_of action) count }
{
    match action {
        Action::EnableTrace => count <= 1,
        Action::DisableTrace => count <= 1,
        Action::Trace => count <= 2,
        Action::Message => true,
        Action::ReturnTrace => true,
        Action::ExceptionTrace => true,
        Action::Silent => true,
        Action::Caller => true,
    }
}

/// How many expressions.
fn count_exprs<A: Allocator>(exprs: &Vec<Expr<A>, A>) -> usize
    ensures { result ≡ count_exprs (exprs_seen exprs.now.items) }
{
    exprs.len()
}

/// Whether each action in the expression is on the own process.
#[cycle(effects)]
fn acts_on_self<A: Allocator>(expr: &Expr<A>) -> bool
    ensures { result ≡ acts_on_self (expr_seen expr.now) }
{
    match expr {
        Expr::Variable(_) => true,
        Expr::WholeList => true,
        Expr::AllBound => true,
        Expr::Constant(_) => true,
        Expr::Tuple(exprs) => act_on_self(exprs),
        Expr::List(exprs) => act_on_self(exprs),
        Expr::Call(_, exprs) => act_on_self(exprs),
        Expr::AndAlso(exprs) => act_on_self(exprs),
        Expr::OrElse(exprs) => act_on_self(exprs),
        Expr::Perform(action, exprs) => {
            names_no_process(*action, count_exprs(exprs)) && act_on_self(exprs)
        }
    }
}

/// Whether each action in several expressions is.
#[cycle(effects)]
fn act_on_self<A: Allocator>(exprs: &Vec<Expr<A>, A>) -> bool
    ensures { result ≡ act_on_self (exprs_seen exprs.now.items) }
{
    for i in 0..exprs.len() {
        if !acts_on_self(&exprs[i]) {
            return false;
        }
    }
    true
}

/// Whether each action in the bodies of clauses is.
fn clauses_act_on_self<A: Allocator>(clauses: &Vec<Clause<A>, A>) -> bool
    ensures { result ≡ clauses_act_on_self (clause_list clauses.now) }
{
    for i in 0..clauses.len() {
        if !act_on_self(&clauses[i].body) {
            return false;
        }
    }
    true
}

/// Whether each action of the setting's specification is, where it has one.
fn setting_acts_on_self<A: Allocator>(setting: Setting<&Spec<A>>) -> bool
    ensures { result ≡ setting_acts_on_self (look_setting setting.entry) }
{
    match setting {
        Setting::Disabled => true,
        Setting::Always => true,
        Setting::Specification(spec) => clauses_act_on_self(&spec.clauses),
    }
}

/// Whether each action of the function command at a place is; true past them.
fn function_acts_on_self<A: Allocator + Copy>(look: &Look<'_, A>, place: usize) -> bool
    ensures { let fs = reverse (look_seen look.now).functions in
        result ≡ acts_by (option_map parts_of (slice_get fs place)) }
{
    match look.function_setting(place) {
        None => true,
        Some(command) => setting_acts_on_self(command.setting),
    }
}

/// Whether each action of function commands is.
fn functions_act_on_self<A: Allocator + Copy>(look: &Look<'_, A>) -> bool
    ensures { result ≡ functions_act_on_self (look_seen look.now).functions }
{
    for place in 0..look.setting_count() {
        if !function_acts_on_self(look, place) {
            return false;
        }
    }
    true
}

/// Whether each action of the specifications of a session is on the own process.
pub fn session_acts_on_self<A: Allocator + Copy>(look: &Look<'_, A>) -> bool
    ensures { result ≡ session_acts_on_self (look_seen look.now) }
{
    let functions = functions_act_on_self(look);
    let sends = setting_acts_on_self(look.send_setting());
    let receives = setting_acts_on_self(look.receive_setting());
    functions && (sends && receives)
}
