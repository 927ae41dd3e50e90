// The places of jumps, once all instructions are there.
ghost use Rattle.std.specs.Prelude.{◌≡◌, ◌+◌, ◌<◌, ◌^◌, IfOk};
ghost use Rattle.def_machine.specs.Compilation.{at_place, fault_at, code_from};
ghost use Rattle.tn_code.specs.Views.{on_fault_seen, instruction_of, instructions_of};
ghost use Rattle.tn_compile.specs.Places.{fault_passed, jump_place, JumpsInside};
ghost use Rattle.tn_compile.specs.Views.{code_left};

use std::alloc::{AllocError, Allocator};
use tn_code::{Instr, OnFault};

/// The place that a fault goes on at, where `next` is the place after the instruction.
fn fault_at(on_fault: OnFault, next: usize) -> OnFault
    requires { next + fault_passed (on_fault_seen on_fault) < 2 ^ 64 }
    ensures { on_fault_seen result ≡ fault_at next (on_fault_seen on_fault) }
{
    match on_fault {
        OnFault::Place(passed) => OnFault::Place(next + passed),
        OnFault::Exit => OnFault::Exit,
    }
}

/// The instruction with its place to go on at, where `next` is the place after it.
fn at_place<A: Allocator>(instr: Instr<A>, next: usize) -> Instr<A>
    requires { next + jump_place (instruction_of instr) < 2 ^ 64 }
    ensures { instruction_of result ≡ at_place next (instruction_of instr) }
{
    match instr {
        Instr::TakeElement {
            to,
            from,
            index,
            place,
        } => Instr::TakeElement {
            to,
            from,
            index,
            place: next + place,
        },
        Instr::TakeRest { to, from, place } => Instr::TakeRest {
            to,
            from,
            place: next + place,
        },
        Instr::TestKind { from, kind, place } => Instr::TestKind {
            from,
            kind,
            place: next + place,
        },
        Instr::TestLength {
            from,
            length,
            place,
        } => Instr::TestLength {
            from,
            length,
            place: next + place,
        },
        Instr::TestEqual { left, right, place } => Instr::TestEqual {
            left,
            right,
            place: next + place,
        },
        Instr::Jump { place } => Instr::Jump {
            place: next + place,
        },
        Instr::Apply {
            func,
            to,
            from,
            on_fault,
        } => Instr::Apply {
            func,
            to,
            from,
            on_fault: fault_at(on_fault, next),
        },
        Instr::ChangeFlags {
            to,
            process,
            off,
            on,
            on_fault,
        } => Instr::ChangeFlags {
            to,
            process,
            off,
            on,
            on_fault: fault_at(on_fault, next),
        },
        other => other,
    }
}

/// The instructions in order, with the places that they go on at; the code stands from its end to its
/// beginning.
pub fn in_places<A: Allocator + Copy>(
    alloc: A,
    mut code: Vec<Instr<A>, A>,
) -> Result<Vec<Instr<A>, A>, AllocError>
    requires { JumpsInside (code_left code) }
    ensures { IfOk result (λ v. instructions_of v.items ≡ code_from 0 (code_left code)) }
{
    let mut items = Vec::with_capacity(alloc, code.len())?;
    while let Some(instr) = code.pop() {
        let next = items.len() + 1;
        items.push(at_place(instr, next))?;
    }
    Ok(items)
}
