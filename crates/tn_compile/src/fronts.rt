// The steps of a head in front of the code that follows.
ghost use Rattle.std.specs.Prelude.{◌≡◌, ◌≤◌, OnOk, length};
ghost use Rattle.tn_code.specs.Views.{instruction_of};
ghost use Rattle.tn_compile.specs.Emissions.{EmitsSteps};
ghost use Rattle.tn_compile.specs.Heads.{with_jump};

use crate::emit_context::emit;
use std::alloc::{AllocError, Allocator};
use tn_code::Instr;

/// The instruction of a head with the number of instructions that it passes, where it jumps.
fn with_jump<A: Allocator>(instr: Instr<A>, passed: usize) -> Instr<A>
    ensures { instruction_of result ≡ with_jump passed (instruction_of instr) }
{
    match instr {
        Instr::TakeElement {
            to,
            from,
            index,
            ..
        } => Instr::TakeElement {
            to,
            from,
            index,
            place: passed,
        },
        Instr::TestKind { from, kind, .. } => Instr::TestKind {
            from,
            kind,
            place: passed,
        },
        Instr::TestLength { from, length, .. } => Instr::TestLength {
            from,
            length,
            place: passed,
        },
        Instr::TestEqual { left, right, .. } => Instr::TestEqual {
            left,
            right,
            place: passed,
        },
        other => other,
    }
}

/// Puts the steps in front of the code, each jumping to where so many instructions are left.
pub fn put_in_front<A: Allocator>(
    code: &mut Vec<Instr<A>, A>,
    mut steps: Vec<Instr<A>, A>,
    left: usize,
) -> Result<(), AllocError>
    requires { left ≤ length code.old.items }
    ensures emitted { OnOk result (EmitsSteps left steps.items code.old code.new) }
    ensures longer { OnOk result (length code.old.items ≤ length code.new.items) }
{
    while let Some(step) = steps.pop() {
        let passed = code.len() - left;
        emit(code, with_jump(step, passed))?;
    }
    Ok(())
}
