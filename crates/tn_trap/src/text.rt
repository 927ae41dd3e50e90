// The line of a trap.
ghost use Rattle.std.specs.Prelude.{◌≡◌, ◌++◌, OnOk};
ghost use Rattle.def_trap.specs.Actions.{action_name};
ghost use Rattle.def_trap.specs.TrapTexts.{body_trap_text, clause_trap_text, matched_text};
ghost use Rattle.def_trap.specs.TrapTexts.{no_call_text, no_flag_trap_text, trap_text};
ghost use Rattle.tn_term.specs.Views.{tree_of};
ghost use Rattle.tn_text.specs.Writes.{Grows};
ghost use Rattle.tn_spec.specs.Views.{action_of, dialect_of};
ghost use Rattle.tn_trap.specs.Views.{body_trap_seen, trap_seen};

use crate::trap::{BodyTrap, Trap};
use std::alloc::{AllocError, Allocator};
use tn_spec::{Action, Dialect};
use tn_term::Term;
use tn_text::{write_atom, write_decimal, write_next, write_term};

/// The name of an action.
fn action_name(action: Action) -> &'static [u8]
    ensures { result.now ≡ action_name (action_of action) }
{
    match action {
        Action::Message => b"message",
        Action::ReturnTrace => b"return_trace",
        Action::ExceptionTrace => b"exception_trace",
        Action::Silent => b"silent",
        Action::EnableTrace => b"enable_trace",
        Action::DisableTrace => b"disable_trace",
        Action::Trace => b"trace",
        Action::Caller => b"caller",
    }
}

/// What is matched in a dialect.
fn matched_text(dialect: Dialect) -> &'static [u8]
    ensures { result.now ≡ matched_text (dialect_of dialect) }
{
    match dialect {
        Dialect::Call => b"no function that is traced has as many arguments",
        Dialect::Send => b"the list of a send is [Receiver,Message]",
        Dialect::Recv => b"the list of a receive is [Node,Sender,Message]",
    }
}

/// What there is where there is no call.
fn no_call_text(dialect: Dialect) -> &'static [u8]
    ensures { result.now ≡ no_call_text (dialect_of dialect) }
{
    match dialect {
        Dialect::Call => b"a call",
        Dialect::Send => b"a send",
        Dialect::Recv => b"a receive",
    }
}

/// Appends that an action lacks a flag.
fn put_no_flag<A: Allocator, B: Allocator>(
    action: Action,
    term: &Term<A>,
    out: &mut Vec<u8, B>,
) -> Result<(), AllocError>
    ensures ok { OnOk result (out.new.items ≡
        out.old.items ++ no_flag_trap_text (action_of action) (tree_of term.now)) }
    ensures grows { Grows out.old.items out.new.items }
{
    out.extend_from_slice(action_name(action))?;
    out.extend_from_slice(b" has no effect, ")?;
    write_term(term, out)?;
    out.extend_from_slice(b" is no flag")?;
    Ok(())
}

/// Appends what is wrong with an expression of a body.
fn put_body_trap<A: Allocator, B: Allocator>(
    dialect: Dialect,
    trap: BodyTrap<'_, A>,
    out: &mut Vec<u8, B>,
) -> Result<(), AllocError>
    ensures ok { OnOk result (out.new.items ≡
        out.old.items ++ body_trap_text (dialect_of dialect) (body_trap_seen trap.entry)) }
    ensures grows { Grows out.old.items out.new.items }
{
    match trap {
        BodyTrap::NamesAction(name) => {
            write_atom(name, out)?;
            out.extend_from_slice(b" is a constant, and no call of the action")?;
            Ok(())
        }
        BodyTrap::MarksNoCall(action) => {
            out.extend_from_slice(action_name(action))?;
            out.extend_from_slice(b" has no effect on ")?;
            out.extend_from_slice(no_call_text(dialect))
        }
        BodyTrap::LacksFlag(action, term) => put_no_flag(action, term, out),
    }
}

/// Appends what is wrong with a clause.
fn put_trap<A: Allocator, B: Allocator>(
    dialect: Dialect,
    trap: Trap<'_, A>,
    out: &mut Vec<u8, B>,
) -> Result<(), AllocError>
    ensures ok { OnOk result (out.new.items ≡ out.old.items ++ trap_text (dialect_of dialect) (trap_seen trap.entry)) }
    ensures grows { Grows out.old.items out.new.items }
{
    match trap {
        Trap::OfHead { elements } => {
            out.extend_from_slice(b"the head has ")?;
            write_decimal(elements, out)?;
            out.extend_from_slice(b" elements, ")?;
            out.extend_from_slice(matched_text(dialect))
        }
        Trap::OfBody { before, trap } => {
            out.extend_from_slice(b"body ")?;
            write_next(before, out)?;
            out.extend_from_slice(b": ")?;
            put_body_trap(dialect, trap, out)
        }
    }
}

/// Appends the line of a trap in the clause after so many.
///
/// # Errors
///
/// AllocError where memory was refused.
pub fn write_trap<A: Allocator, B: Allocator>(
    dialect: Dialect,
    before: usize,
    trap: Trap<'_, A>,
    out: &mut Vec<u8, B>,
) -> Result<(), AllocError>
    ensures ok { OnOk result (out.new.items ≡
        out.old.items ++ clause_trap_text (dialect_of dialect) before (trap_seen trap.entry)) }
    ensures grows { Grows out.old.items out.new.items }
{
    out.extend_from_slice(b"clause ")?;
    write_next(before, out)?;
    out.extend_from_slice(b": ")?;
    put_trap(dialect, trap, out)
}
