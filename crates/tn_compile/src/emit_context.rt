// What code is emitted for: the dialect, the part of the clause, and the registers of the variables.
ghost use Rattle.std.specs.Prelude.{◌≡◌, ◌∷◌, ◌+◌, OnOk, IfOk, length};
ghost use Rattle.std.specs.FinMap.{find};
ghost use Rattle.std.specs.Ordering.{nat_cmp};
ghost use Rattle.def_machine.specs.Compilation.{all_registers};
ghost use Rattle.tn_code.specs.Views.{instruction_of};
ghost use Rattle.tn_compile.specs.Views.{code_left, variables_seen};

use std::alloc::{AllocError, Allocator};
use tn_code::Instr;
use tn_spec::Dialect;

/// Where a fault is a fault of the whole, and where it is `'EXIT'`.
#[derive(Clone, Copy)]
pub enum Position {
    Condition,
    Body,
}

/// A variable, by its number, with its register.
#[derive(Clone, Copy)]
pub struct VariableRegister {
    pub number: u16,
    pub register: usize,
}

/// What the code of expressions is emitted for.
#[derive(Clone, Copy)]
pub struct EmitContext<'a> {
    pub dialect: Dialect,
    pub part: Position,
    /// The variables of the head, by rising number.
    pub variables: &'a [VariableRegister],
    /// How many instructions are left where a fault of a condition goes on.
    pub left: usize,
}

/// Which value stops a list of expressions, and where the code goes on then.
#[derive(Clone, Copy)]
pub struct Stop {
    /// A value that is `true`, or one that isn't.
    pub on_true: bool,
    /// How many instructions are left there.
    pub left: usize,
}

/// Puts an instruction in front of the code, which stands from its end to its beginning.
pub fn emit<A: Allocator>(code: &mut Vec<Instr<A>, A>, instr: Instr<A>) -> Result<(), AllocError>
    ensures emitted { OnOk result (code_left code.new ≡ instruction_of instr ∷ code_left code.old) }
    ensures longer { OnOk result (length code.new.items ≡ length code.old.items + 1) }
{
    code.push(instr)?;
    Ok(())
}

/// The register of a variable.
pub fn register_of_variable(variables: &[VariableRegister], number: u16) -> Option<usize>
    ensures { result ≡ find nat_cmp number (variables_seen variables.now) }
{
    for variable in variables {
        if variable.number == number {
            return Some(variable.register);
        }
    }
    None
}

/// The registers of the variables, by rising number.
pub fn all_registers<A: Allocator + Copy>(
    alloc: A,
    variables: &[VariableRegister],
) -> Result<Vec<usize, A>, AllocError>
    ensures { IfOk result (λ v. v.items ≡ all_registers (variables_seen variables.now)) }
{
    let mut registers = Vec::with_capacity(alloc, variables.len())?;
    for variable in variables {
        registers.push(variable.register)?;
    }
    Ok(registers)
}
