// Valid code.
ghost use Rattle.std.specs.Prelude.{◌≡◌, ◌≤◌};
ghost use Rattle.def_machine.specs.Validity.{Valid};
ghost use Rattle.tn_code.specs.Views.{instruction_of, instructions_of};
ghost use Rattle.tn_code.specs.Rooms.{SetsUpTo, AllSetUpTo};
ghost use Rattle.tn_code.specs.OneProof.{valid-prop, room-prop};

use crate::instr::Instr;
use crate::ways::{Next, ways_of};
use std::alloc::Allocator;

/// The instructions of a specification: jumps go forward and inside, functions have their number of
/// registers, and no register is read before it is set.
#[derive(Drop)]
pub struct Code<A: Allocator> {
    items: Vec<Instr<A>, A>,
    /// No instruction sets a register past this one.
    greatest: usize,
    ghost valid: { Valid (instructions_of items.items) } by { valid-prop (instructions_of items.items) },
    ghost room: { AllSetUpTo greatest (instructions_of items.items) } by { room-prop greatest items.items },
}

/// The register that the instruction sets, or 0.
fn register_set<A: Allocator>(instr: &Instr<A>) -> usize
    ensures { SetsUpTo result (instruction_of instr.now) }
{
    match ways_of(instr).next {
        Next::Sets(to) => to,
        Next::Plain | Next::Never => 0,
    }
}

/// The larger of two registers.
fn larger(one: usize, other: usize) -> usize
    ensures one { one ≤ result }
    ensures other { other ≤ result }
{
    if one < other { other } else { one }
}

/// The greatest register that an instruction sets, or 0.
fn greatest_set<A: Allocator>(items: &[Instr<A>]) -> usize
    ensures { AllSetUpTo result (instructions_of items.now) }
{
    let mut greatest = 0;
    for instr in items {
        greatest = larger(greatest, register_set(instr));
    }
    greatest
}

impl<A: Allocator> Code<A> {
    ghost use Rattle.tn_code.specs.Codes.{code_seen};

    /// The code of these instructions, which are valid.
    pub fn of(items: Vec<Instr<A>, A>) -> Code<A>
        requires { Valid (instructions_of items.items) }
        ensures { code_seen result ≡ instructions_of items.items }
    {
        let greatest = greatest_set(items.as_slice());
        Code { items, greatest }
    }

    /// Its instructions.
    pub fn instructions(&self) -> &[Instr<A>]
        ensures same { instructions_of result.now ≡ code_seen self.now }
        ensures valid { Valid (code_seen self.now) }
    {
        self.items.as_slice()
    }

    /// A register that none of those that it sets is past.
    pub fn greatest_register(&self) -> usize
        ensures { AllSetUpTo result (code_seen self.now) }
    {
        self.greatest
    }
}
