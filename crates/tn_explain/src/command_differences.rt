// What a running node does otherwise by a function command.
ghost use Rattle.std.specs.Prelude.{IfOk};
ghost use Rattle.tn_term.specs.Views.{tree_of};
ghost use Rattle.tn_flags.specs.Views.{command_of};
ghost use Rattle.tn_explain.specs.CommandDifferences.{differences_seen, HasPatternDifference};
ghost use Rattle.tn_explain.specs.CommandDifferences.{OneIsSetOtherwise, OneIsInternalAndSet};
ghost use Rattle.tn_explain.specs.CommandDifferences.{HasFunctionDifference, HasLiveDifference};
ghost use Rattle.tn_explain.specs.CommandDifferences.{HasCommandDifference};

use crate::differences::difference_where;
use std::alloc::{AllocError, Allocator};
use tn_difference::Difference;
use tn_flags::Command;
use tn_index::FunctionPattern;
use tn_running_node::{is_among, is_covered, is_on_where_read, is_set};
use tn_script::Function;
use tn_session::{Look, Session, options_of, pattern_of};
use tn_term::Term;

/// Whether a function that a command about these matches has a setting of the other kind.
fn is_set_otherwise<A: Allocator + Copy>(
    alloc: A,
    look: &Look<'_, A>,
    functions: &[Function<A>],
    covered: &FunctionPattern<A>,
    local: bool,
) -> Result<bool, AllocError>
    ensures { IfOk result (OneIsSetOtherwise look.now functions.now covered.now local) }
{
    for function in functions {
        let among = is_among(covered, function, local);
        if among && is_set(alloc, look, function, !local)? {
            return Ok(true);
        }
    }
    Ok(false)
}

/// Whether one of these functions that isn't exported has a local setting.
fn is_internal_and_set<A: Allocator + Copy>(
    alloc: A,
    look: &Look<'_, A>,
    functions: &[Function<A>],
    covered: &FunctionPattern<A>,
) -> Result<bool, AllocError>
    ensures { IfOk result (OneIsInternalAndSet look.now functions.now covered.now) }
{
    for function in functions {
        let internal = is_covered(covered, function) && !function.exported;
        if internal && is_set(alloc, look, function, true)? {
            return Ok(true);
        }
    }
    Ok(false)
}

/// What a node does otherwise by a function command about these, which disables them or doesn't.
fn pattern_difference<A: Allocator + Copy>(
    alloc: A,
    look: &Look<'_, A>,
    functions: &[Function<A>],
    covered: &FunctionPattern<A>,
    local: bool,
    on: bool,
) -> Result<Option<Difference>, AllocError>
    ensures { IfOk result (λ r.
        HasPatternDifference look.now functions.now covered.now local on (differences_seen r)) }
{
    if !on {
        let leaves = is_set_otherwise(alloc, look, functions, covered, local)?;
        return Ok(difference_where(leaves, Difference::LeavesOtherSetting));
    }
    if local {
        return Ok(None);
    }
    let takes = is_internal_and_set(alloc, look, functions, covered)?;
    Ok(difference_where(takes, Difference::TakesLocalSetting))
}

/// What a node does otherwise by a function command with these arguments.
fn function_difference<A: Allocator + Copy>(
    alloc: A,
    look: &Look<'_, A>,
    functions: &[Function<A>],
    mfa: &Term<A>,
    specification: &Term<A>,
    options: &Term<A>,
) -> Result<Option<Difference>, AllocError>
    ensures { IfOk result (λ r. HasFunctionDifference look.now functions.now (tree_of mfa.now)
        (tree_of specification.now) (tree_of options.now) (differences_seen r)) }
{
    let Some(covered) = pattern_of(alloc, mfa)? else {
        return Ok(None);
    };
    let Some(local) = options_of(options) else {
        return Ok(None);
    };
    let Some(on) = is_on_where_read(alloc, specification)? else {
        return Ok(None);
    };
    Ok(pattern_difference(alloc, look, functions, &covered, local, on)?)
}

/// What a node does otherwise by a command to a live session.
fn live_difference<A: Allocator + Copy>(
    alloc: A,
    look: &Look<'_, A>,
    functions: &[Function<A>],
    command: &Command<A>,
) -> Result<Option<Difference>, AllocError>
    ensures { IfOk result (λ r.
        HasLiveDifference look.now functions.now (command_of command.now) (differences_seen r)) }
{
    match command {
        Command::Function {
            mfa,
            specification,
            options,
            ..
        } => Ok(function_difference(alloc, look, functions, mfa, specification, options)?),
        _ => Ok(None),
    }
}

/// What a node does otherwise by a command to a session. An error is refused memory.
pub(crate) fn command_difference<A: Allocator + Copy>(
    alloc: A,
    session: &Option<Session<A>>,
    functions: &[Function<A>],
    command: &Command<A>,
) -> Result<Option<Difference>, AllocError>
    ensures { IfOk result (λ r.
        HasCommandDifference functions.now session.now (command_of command.now) (differences_seen r)) }
{
    let Some(session) = session else {
        return Ok(None);
    };
    let Some(look) = session.look() else {
        return Err(AllocError);
    };
    if look.is_live() {
        Ok(live_difference(alloc, &look, functions, command)?)
    } else {
        Ok(None)
    }
}
