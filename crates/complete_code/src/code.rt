// Valid code.
ghost use Rattle.std.specs.Prelude.{◌≡◌};
ghost use Rattle.std.specs.Option.{option_map};
ghost use Rattle.def_machine.specs.Validity.{Valid};
ghost use Rattle.tn_code.specs.Codes.{code_seen};
ghost use Rattle.tn_code.specs.Views.{instructions_of};

use std::alloc::Allocator;
use tn_code::{Code, Instr};

/// `tn_code::check` has one answer.
pub fn check<A: Allocator>(
    one: Vec<Instr<A>, A>,
    other: Vec<Instr<A>, A>,
) -> (Option<Code<A>>, Option<Code<A>>)
    requires { instructions_of one.items ≡ instructions_of other.items }
    ensures { option_map code_seen result.0 ≡ option_map code_seen result.1 }
{
    (tn_code::check(one), tn_code::check(other))
}

/// `tn_code::Code::of` has one answer.
pub fn of<A: Allocator>(one: Vec<Instr<A>, A>, other: Vec<Instr<A>, A>) -> (Code<A>, Code<A>)
    requires valid { Valid (instructions_of one.items) }
    requires same { instructions_of one.items ≡ instructions_of other.items }
    ensures { code_seen result.0 ≡ code_seen result.1 }
{
    (Code::of(one), Code::of(other))
}

/// `tn_code::Code::instructions` has one answer.
pub fn instructions<'c, A: Allocator>(
    one: &'c Code<A>,
    other: &'c Code<A>,
) -> (&'c [Instr<A>], &'c [Instr<A>])
    requires { code_seen one.now ≡ code_seen other.now }
    ensures { instructions_of result.0.now ≡ instructions_of result.1.now }
{
    (one.instructions(), other.instructions())
}
