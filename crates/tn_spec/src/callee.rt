// What a name calls where it stands.
ghost use Rattle.std.specs.Prelude.{◌≡◌};
ghost use Rattle.def_spec.specs.Reading.{has_action, is_allowed, is_at_most, named_call};
ghost use Rattle.tn_spec.specs.Answers.{IsRead};
ghost use Rattle.tn_spec.specs.Names.{called_seen, position_seen, row_takes, row_allows};
ghost use Rattle.tn_spec.specs.Views.{dialect_of, action_of};

use crate::fault::SpecFault;
use crate::func::{Action, Dialect};
use crate::table::{Callee, Row, is_unsupported, row_named};
use std::alloc::Allocator;
use tn_term::Atom;

/// Where an expression stands: in the conditions of a clause or in its body.
#[derive(Clone, Copy)]
pub enum Position {
    Condition,
    Body,
}

/// Whether bodies of that dialect have the action.
pub fn is_in_bodies(dialect: Dialect, action: Action) -> bool
    ensures { result ≡ has_action (dialect_of dialect) (action_of action) }
{
    match action {
        Action::Message | Action::ReturnTrace | Action::ExceptionTrace => true,
        Action::Silent | Action::EnableTrace | Action::DisableTrace | Action::Trace =>
            match dialect {
                Dialect::Call | Dialect::Send => true,
                Dialect::Recv => false,
            },
        Action::Caller => match dialect {
            Dialect::Call => true,
            Dialect::Send | Dialect::Recv => false,
        },
    }
}

/// Whether the call may stand there: actions in bodies alone.
pub fn may_stand(dialect: Dialect, part: Position, called: Callee) -> bool
    ensures { result ≡ is_allowed (dialect_of dialect) (position_seen part) (called_seen called) }
{
    match (part, called) {
        (Position::Condition, Callee::Action(_)) => false,
        (Position::Body, Callee::Action(action)) => is_in_bodies(dialect, action),
        _ => true,
    }
}

/// Whether so many arguments are no more than the greatest number, where there is one.
fn is_few(most: Option<usize>, args: usize) -> bool
    ensures { result ≡ is_at_most most args }
{
    match most {
        Some(most) => args <= most,
        None => true,
    }
}

impl Row {
    /// Whether what it calls takes so many arguments.
    pub fn takes(self, args: usize) -> bool
        ensures { result ≡ row_takes self args }
    {
        self.least <= args && is_few(self.most, args)
    }
}

/// Whether what the row calls may stand there, with so many arguments.
fn fits(row: Row, dialect: Dialect, part: Position, args: usize) -> bool
    ensures { result ≡ row_allows row (dialect_of dialect) (position_seen part) args }
{
    row.takes(args) && may_stand(dialect, part, row.called)
}

/// What the name calls there with so many arguments. An unsupported name is a fault of its own, with
/// any number of arguments.
pub fn callee_of<A: Allocator>(
    alloc: A,
    dialect: Dialect,
    part: Position,
    name: &Atom<A>,
    args: usize,
) -> Result<Callee, SpecFault<A>>
    ensures { IsRead called_seen (named_call (dialect_of dialect) (position_seen part) name.now args) result }
{
    let text = name.text();
    if is_unsupported(text) {
        return Err(SpecFault::Unsupported(name.copy_into(alloc)?));
    }
    let Some(row) = row_named(text) else {
        return Err(SpecFault::Badarg);
    };
    if fits(row, dialect, part, args) {
        Ok(row.called)
    } else {
        Err(SpecFault::Badarg)
    }
}
