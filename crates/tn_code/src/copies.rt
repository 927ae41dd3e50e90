// Copies of instructions.
ghost use Rattle.std.specs.Prelude.{◌≡◌, IfOk};
ghost use Rattle.tn_code.specs.Views.{instruction_of};

use crate::instr::Instr;
use std::alloc::{AllocError, Allocator};

/// The numbers of registers in another allocator.
fn copy_registers<B: Allocator + Copy>(
    registers: &[usize],
    alloc: B,
) -> Result<Vec<usize, B>, AllocError>
    ensures { IfOk result (λ v. v.items ≡ registers.now) }
{
    let mut copies = Vec::with_capacity(alloc, registers.len())?;
    for register in registers {
        copies.push(*register)?;
    }
    Ok(copies)
}

impl<A: Allocator> Instr<A> {
    /// The same instruction, in an allocator.
    pub fn copy<B: Allocator + Copy>(&self, alloc: B) -> Result<Instr<B>, AllocError>
        ensures { IfOk result (λ i. instruction_of i ≡ instruction_of self.now) }
    {
        match self {
            Instr::LoadConstant { to, term } => Ok(Instr::LoadConstant {
                to: *to,
                term: term.copy_into(alloc)?,
            }),
            Instr::LoadList { to } => Ok(Instr::LoadList { to: *to }),
            Instr::LoadOwnPid { to } => Ok(Instr::LoadOwnPid { to: *to }),
            Instr::LoadCaller { to } => Ok(Instr::LoadCaller { to: *to }),
            Instr::TakeElement {
                to,
                from,
                index,
                place,
            } => Ok(Instr::TakeElement {
                to: *to,
                from: *from,
                index: *index,
                place: *place,
            }),
            Instr::TakeRest { to, from, place } => Ok(Instr::TakeRest {
                to: *to,
                from: *from,
                place: *place,
            }),
            Instr::TestKind { from, kind, place } => Ok(Instr::TestKind {
                from: *from,
                kind: *kind,
                place: *place,
            }),
            Instr::TestLength {
                from,
                length,
                place,
            } => Ok(Instr::TestLength {
                from: *from,
                length: *length,
                place: *place,
            }),
            Instr::TestEqual { left, right, place } => Ok(Instr::TestEqual {
                left: *left,
                right: *right,
                place: *place,
            }),
            Instr::Jump { place } => Ok(Instr::Jump { place: *place }),
            Instr::Build { kind, to, from } => Ok(Instr::Build {
                kind: *kind,
                to: *to,
                from: copy_registers(from.as_slice(), alloc)?,
            }),
            Instr::Apply {
                func,
                to,
                from,
                on_fault,
            } => Ok(Instr::Apply {
                func: *func,
                to: *to,
                from: copy_registers(from.as_slice(), alloc)?,
                on_fault: *on_fault,
            }),
            Instr::Perform {
                dialect,
                action,
                to,
                from,
            } => Ok(Instr::Perform {
                dialect: *dialect,
                action: *action,
                to: *to,
                from: copy_registers(from.as_slice(), alloc)?,
            }),
            Instr::ChangeFlags {
                to,
                process,
                off,
                on,
                on_fault,
            } => Ok(Instr::ChangeFlags {
                to: *to,
                process: *process,
                off: *off,
                on: *on,
                on_fault: *on_fault,
            }),
            Instr::EndMatch => Ok(Instr::EndMatch),
            Instr::EndNoMatch => Ok(Instr::EndNoMatch),
        }
    }
}
