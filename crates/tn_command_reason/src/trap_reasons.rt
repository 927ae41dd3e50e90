// The trap of the specification of a command, whatever its session is.
ghost use Rattle.std.specs.Prelude.{◌≡◌, IfOk};
ghost use Rattle.def_explain.specs.CommandReasons.{spec_trap};
ghost use Rattle.def_trap.specs.Traps.{first_trap};
ghost use Rattle.tn_term.specs.Views.{tree_of};
ghost use Rattle.tn_flags.specs.Views.{command_of};
ghost use Rattle.tn_spec.specs.Views.{dialect_of};
ghost use Rattle.tn_trap.specs.Views.{clauses_seen};
ghost use Rattle.tn_command_reason.specs.FunctionTraps.{AreMatchingArities, HasFunctionTrap};
ghost use Rattle.tn_command_reason.specs.FunctionTraps.{HasTrapReason, TellsTrap};
ghost use Rattle.tn_command_reason.specs.HeldTraps.{counted_reason, spec_traps_seen};

use crate::held_trap::{SpecTrap, held_trap};
use std::alloc::{AllocError, Allocator};
use tn_flags::Command;
use tn_index::FunctionPattern;
use tn_running_node::{is_among, is_empty_list};
use tn_script::Function;
use tn_session::{options_of, pattern_of};
use tn_spec::{Clause, Dialect, SpecFault, spec_of};
use tn_term::Term;
use tn_trap::first_trap;

/// The arities of the functions that a command about these matches, of all of them or of the exported ones alone.
fn matching_arities<A: Allocator + Copy>(
    alloc: A,
    functions: &[Function<A>],
    covered: &FunctionPattern<A>,
    local: bool,
) -> Result<Vec<usize, A>, AllocError>
    ensures { IfOk result (λ v. AreMatchingArities functions.now covered.now local v.items) }
{
    let mut arities = Vec::new(alloc);
    for function in functions {
        if is_among(covered, function, local) {
            arities.push(function.params.len())?;
        }
    }
    Ok(arities)
}

/// The first trap of clauses that a command sets and replies this number; the lists that are matched have these
/// lengths.
fn trap_of_clauses<A: Allocator + Copy>(
    alloc: A,
    clauses: &Vec<Clause<A>, A>,
    count: usize,
    lengths: &[usize],
    dialect: Dialect,
) -> Result<Option<SpecTrap<A>>, AllocError>
    ensures { IfOk result (λ t. spec_traps_seen t ≡ counted_reason count (dialect_of dialect)
        (first_trap (dialect_of dialect) lengths.now (clauses_seen clauses.now.items))) }
{
    match first_trap(dialect, lengths, clauses) {
        Some((before, trap)) => Ok(Some(SpecTrap {
            count,
            before,
            dialect,
            trap: held_trap(alloc, trap)?,
        })),
        None => Ok(None),
    }
}

/// The same of a Spec; `true`, `[]` and `false` have no clauses, nor has what can't be read.
fn spec_trap<A: Allocator + Copy>(
    alloc: A,
    term: &Term<A>,
    count: usize,
    lengths: &[usize],
    dialect: Dialect,
) -> Result<Option<SpecTrap<A>>, AllocError>
    ensures { IfOk result (λ t. spec_traps_seen t ≡
        spec_trap count (dialect_of dialect) lengths.now (tree_of term.now)) }
{
    if term.is_word("true") || is_empty_list(term) {
        return Ok(None);
    }
    if term.is_word("false") {
        return Ok(None);
    }
    match spec_of(alloc, term, dialect) {
        Ok(spec) => trap_of_clauses(alloc, &spec.clauses, count, lengths, dialect),
        Err(SpecFault::Badarg) | Err(SpecFault::Unsupported(_)) => Ok(None),
        Err(SpecFault::TooLarge) | Err(SpecFault::OutOfMemory) => Err(AllocError),
    }
}

/// The same of a function command, where MFA and Opts are read.
fn function_trap<A: Allocator + Copy>(
    alloc: A,
    functions: &[Function<A>],
    mfa: &Term<A>,
    specification: &Term<A>,
    options: &Term<A>,
) -> Result<Option<SpecTrap<A>>, AllocError>
    ensures { IfOk result (λ t. HasFunctionTrap functions.now (tree_of mfa.now) (tree_of specification.now)
        (tree_of options.now) (spec_traps_seen t)) }
{
    let Some(covered) = pattern_of(alloc, mfa)? else {
        return Ok(None);
    };
    let Some(local) = options_of(options) else {
        return Ok(None);
    };
    let arities = matching_arities(alloc, functions, &covered, local)?;
    spec_trap(alloc, specification, arities.len(), &arities, Dialect::Call)
}

/// The trap of the specification of a command, where the command is done.
pub(crate) fn trap_reason<A: Allocator + Copy>(
    alloc: A,
    functions: &[Function<A>],
    command: &Command<A>,
) -> Result<Option<SpecTrap<A>>, AllocError>
    ensures { IfOk result (λ t. HasTrapReason functions.now (command_of command.now) (spec_traps_seen t)) }
{
    match command {
        Command::SessionCreate { .. } => Ok(None),
        Command::SessionDestroy { .. } => Ok(None),
        Command::Process { .. } => Ok(None),
        Command::Function {
            mfa,
            specification,
            options,
            ..
        } => function_trap(alloc, functions, mfa, specification, options),
        Command::Send { specification, .. } => {
            spec_trap(alloc, specification, 1, &[2], Dialect::Send)
        }
        Command::Recv { specification, .. } => {
            spec_trap(alloc, specification, 1, &[3], Dialect::Recv)
        }
    }
}

/// Whether the specification of a command has a trap. An error is refused memory.
pub fn has_trap<A: Allocator + Copy>(
    alloc: A,
    functions: &[Function<A>],
    command: &Command<A>,
) -> Result<bool, AllocError>
    ensures { IfOk result (TellsTrap functions.now (command_of command.now)) }
{
    Ok(trap_reason(alloc, functions, command)?.is_some())
}
