// The code of clauses.
ghost use Rattle.std.specs.Prelude.{◌≡◌, ◌<◌, ◌≤◌, ◌^◌, OnOk, IfOk, length, map};
ghost use Rattle.def_machine.specs.Compilation.{code_of};
ghost use Rattle.tn_code.specs.Codes.{code_seen};
ghost use Rattle.tn_spec.specs.Sizes.{clauses_size};
ghost use Rattle.tn_spec.specs.Views.{clause_seen, dialect_of};
ghost use Rattle.tn_spec.specs.Wholes.{spec_seen};
ghost use Rattle.tn_compile.specs.Emissions.{EmitsClause, EmitsClauses};
ghost use Rattle.tn_compile.specs.Rooms.{HasRoomFor};

use crate::emit_context::{EmitContext, Position, Stop, emit};
use crate::exprs::{emit_exprs, emit_tests};
use crate::folds::folded_exprs;
use crate::fronts::put_in_front;
use crate::heads::{HeadSteps, steps_of_head};
use crate::places::in_places;
use std::alloc::{AllocError, Allocator};
use tn_code::{Code, Instr};
use tn_spec::{Clause, Dialect, Spec};

/// Puts the code of a clause in front of the code that follows where it doesn't fire.
fn emit_clause<P: Allocator, A: Allocator + Copy>(
    alloc: A,
    code: &mut Vec<Instr<A>, A>,
    clause: &Clause<P>,
    dialect: Dialect,
) -> Result<(), AllocError>
    requires { HasRoomFor clause.now }
    ensures emitted { OnOk result (EmitsClause (dialect_of dialect) (clause_seen clause.now) code.old code.new) }
    ensures longer { OnOk result (length code.old.items ≤ length code.new.items) }
{
    let left = code.len();
    let HeadSteps {
        steps,
        variables,
        free,
    } = steps_of_head(alloc, &clause.head)?;
    emit(code, Instr::EndMatch)?;
    let body = EmitContext {
        dialect,
        part: Position::Body,
        variables: variables.as_slice(),
        left,
    };
    let values = folded_exprs(alloc, &clause.body)?;
    emit_exprs(alloc, code, &values, &body, free)?;
    let conditions = EmitContext {
        part: Position::Condition,
        ..body
    };
    let stop = Stop {
        on_true: false,
        left,
    };
    let tests = folded_exprs(alloc, &clause.conditions)?;
    emit_tests(alloc, code, &tests, &conditions, free, stop)?;
    put_in_front(code, steps, left)?;
    Ok(emit(code, Instr::LoadList { to: 0 })?)
}

/// Puts the code of the clauses in front of the code that follows where none fires.
fn emit_clauses<P: Allocator, A: Allocator + Copy>(
    alloc: A,
    code: &mut Vec<Instr<A>, A>,
    clauses: &[Clause<P>],
    dialect: Dialect,
) -> Result<(), AllocError>
    requires { clauses_size (map clause_seen clauses.now) < 2 ^ 32 }
    ensures { OnOk result (EmitsClauses (dialect_of dialect) (map clause_seen clauses.now) code.old code.new) }
{
    let mut i = clauses.len();
    while i > 0 {
        i -= 1;
        let clause = &clauses[i];
        emit_clause(alloc, code, clause, dialect)?;
    }
    Ok(())
}

/// The code of a specification. An error is refused memory.
pub fn compile<P: Allocator, A: Allocator + Copy>(
    alloc: A,
    spec: &Spec<P>,
) -> Result<Code<A>, AllocError>
    ensures { IfOk result (λ c. code_seen c ≡ code_of (spec_seen spec.now)) }
{
    let mut code = Vec::new(alloc);
    emit(&mut code, Instr::EndNoMatch)?;
    emit_clauses(alloc, &mut code, spec.clauses.as_slice(), spec.dialect)?;
    let items = in_places(alloc, code)?;
    Ok(Code::of(items))
}
