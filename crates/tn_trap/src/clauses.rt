// The first trap of clauses.
ghost use Rattle.std.specs.Prelude.{◌≡◌, ◌==◌};
ghost use Rattle.std.specs.List.{list_any};
ghost use Rattle.def_spec.specs.Reading.{found_in, table};
ghost use Rattle.def_trap.specs.Actions.{is_of_calls};
ghost use Rattle.def_trap.specs.Traps.{action_named, action_trap, body_trap, clause_trap, first_in_body};
ghost use Rattle.def_trap.specs.Traps.{first_trap, head_trap, is_action, length_trap};
ghost use Rattle.def_trap.specs.Traps.{is_action_name, marks_call, named_action};
ghost use Rattle.tn_term.specs.Views.{tree_of};
ghost use Rattle.tn_spec.specs.Names.{called_seen};
ghost use Rattle.tn_spec.specs.Views.{action_of, clause_seen, dialect_of, expr_seen, exprs_seen, head_seen};
ghost use Rattle.tn_trap.specs.Views.{body_traps_seen, clauses_seen, counted_traps_seen, traps_seen};

use crate::arguments::no_flag_among;
use crate::trap::{BodyTrap, Trap};
use std::alloc::Allocator;
use tn_spec::{Action, Callee, Clause, Dialect, Expr, Head, row_named};
use tn_term::{Atom, Term};

/// Whether an action is called.
fn is_action(called: Callee) -> bool
    ensures { result ≡ is_action (called_seen called) }
{
    match called {
        Callee::Action(_) => true,
        Callee::Func(_) => false,
        Callee::AndAlso => false,
        Callee::OrElse => false,
    }
}

/// Whether this is the name of an action.
fn is_action_name(name: &str) -> bool
    ensures { result ≡ is_action_name name.now }
{
    match row_named(name) {
        Some(row) => is_action(row.called),
        None => false,
    }
}

/// An atom, where it is the name of an action.
fn action_named<'a, A: Allocator>(name: &'a Atom<A>) -> Option<BodyTrap<'a, A>>
    ensures { body_traps_seen result ≡ action_named name.now }
{
    if is_action_name(name.text()) {
        Some(BodyTrap::NamesAction(name))
    } else {
        None
    }
}

/// A constant of a body that is the name of an action.
fn named_action<'a, A: Allocator>(term: &'a Term<A>) -> Option<BodyTrap<'a, A>>
    ensures { body_traps_seen result ≡ named_action (tree_of term.now) }
{
    match term {
        Term::Atom(name) => action_named(name),
        Term::Int(_) => None,
        Term::Pid(_) => None,
        Term::Tuple(_) => None,
        Term::List(_) => None,
    }
}

/// Whether an action marks a call.
fn marks_call(action: Action) -> bool
    ensures { result ≡ marks_call (action_of action) }
{
    match action {
        Action::ReturnTrace => true,
        Action::ExceptionTrace => true,
        Action::Message => false,
        Action::Silent => false,
        Action::EnableTrace => false,
        Action::DisableTrace => false,
        Action::Trace => false,
        Action::Caller => false,
    }
}

/// Whether a specification is for calls.
fn is_of_calls(dialect: Dialect) -> bool
    ensures { result ≡ is_of_calls (dialect_of dialect) }
{
    match dialect {
        Dialect::Call => true,
        Dialect::Send => false,
        Dialect::Recv => false,
    }
}

/// Of a call of an action.
fn action_trap<'a, A: Allocator>(
    dialect: Dialect,
    action: Action,
    arguments: &'a Vec<Expr<A>, A>,
) -> Option<BodyTrap<'a, A>>
    ensures { body_traps_seen result ≡
        action_trap (dialect_of dialect) (action_of action) (exprs_seen arguments.now.items) }
{
    if marks_call(action) && !is_of_calls(dialect) {
        return Some(BodyTrap::MarksNoCall(action));
    }
    match no_flag_among(action, arguments) {
        Some(term) => Some(BodyTrap::LacksFlag(action, term)),
        None => None,
    }
}

/// Of an expression of a body.
fn body_trap<'a, A: Allocator>(dialect: Dialect, expr: &'a Expr<A>) -> Option<BodyTrap<'a, A>>
    ensures { body_traps_seen result ≡ body_trap (dialect_of dialect) (expr_seen expr.now) }
{
    match expr {
        Expr::Constant(term) => named_action(term),
        Expr::Perform(action, arguments) => action_trap(dialect, *action, arguments),
        Expr::Variable(_) => None,
        Expr::WholeList => None,
        Expr::AllBound => None,
        Expr::Tuple(_) => None,
        Expr::List(_) => None,
        Expr::Call(_, _) => None,
        Expr::AndAlso(_) => None,
        Expr::OrElse(_) => None,
    }
}

/// The first of a body.
fn first_in_body<'a, A: Allocator>(
    dialect: Dialect,
    body: &'a Vec<Expr<A>, A>,
) -> Option<Trap<'a, A>>
    ensures { traps_seen result ≡ first_in_body (dialect_of dialect) 0 (exprs_seen body.now.items) }
{
    for before in 0..body.len() {
        if let Some(trap) = body_trap(dialect, &body[before]) {
            return Some(Trap::OfBody { before, trap });
        }
    }
    None
}

/// Whether one of these lengths is this one.
fn has_length(lengths: &[usize], elements: usize) -> bool
    ensures { result ≡ list_any (λ m. m == elements) lengths.now }
{
    lengths.iter().any(|length| *length == elements)
}

/// Of a head of so many elements, where the lists that are matched have these lengths.
fn length_trap<'a, A: Allocator>(lengths: &[usize], elements: usize) -> Option<Trap<'a, A>>
    ensures { traps_seen result ≡ length_trap lengths.now elements }
{
    if has_length(lengths, elements) {
        None
    } else {
        Some(Trap::OfHead { elements })
    }
}

/// Of a head, where the lists that are matched have these lengths.
fn head_trap<'a, A: Allocator>(lengths: &[usize], head: &'a Head<A>) -> Option<Trap<'a, A>>
    ensures { traps_seen result ≡ head_trap lengths.now (head_seen head.now) }
{
    match head {
        Head::List(patterns) => length_trap(lengths, patterns.len()),
        Head::Variable(_) => None,
        Head::Anything => None,
    }
}

/// The first of a clause.
fn clause_trap<'a, A: Allocator>(
    dialect: Dialect,
    lengths: &[usize],
    clause: &'a Clause<A>,
) -> Option<Trap<'a, A>>
    ensures { traps_seen result ≡ clause_trap (dialect_of dialect) lengths.now (clause_seen clause.now) }
{
    match head_trap(lengths, &clause.head) {
        Some(trap) => Some(trap),
        None => first_in_body(dialect, &clause.body),
    }
}

/// The first trap of these clauses, where the lists that are matched have these lengths, with how many clauses are
/// before its own.
pub fn first_trap<'a, A: Allocator>(
    dialect: Dialect,
    lengths: &[usize],
    clauses: &'a Vec<Clause<A>, A>,
) -> Option<(usize, Trap<'a, A>)>
    ensures { counted_traps_seen result ≡ first_trap (dialect_of dialect) lengths.now (clauses_seen clauses.now.items) }
{
    for before in 0..clauses.len() {
        if let Some(trap) = clause_trap(dialect, lengths, &clauses[before]) {
            return Some((before, trap));
        }
    }
    None
}
