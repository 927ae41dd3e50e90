// A run of code.
ghost use Rattle.std.specs.Prelude.{◌≡◌, IfOk};
ghost use Rattle.tn_action.specs.Views.{context_seen, outcome_seen};
ghost use Rattle.tn_code.specs.Codes.{code_seen};

use bumpalo::Bump;
use std::alloc::{AllocError, Allocator};
use tn_code::Code;
use tn_machine::{Context, Outcome};

/// `tn_machine::execute` has one answer.
pub fn execute<'a, A: Allocator + Copy>(
    alloc: A,
    code: &'a Code<A>,
    again: &'a Code<A>,
    one: &Context<'a, '_, A>,
    other: &Context<'a, '_, A>,
    arena: &'a Bump<A>,
) -> (
    Result<Outcome<'a, A>, AllocError>,
    Result<Outcome<'a, A>, AllocError>,
)
    requires codes { code_seen code.now ≡ code_seen again.now }
    requires contexts { context_seen one.now ≡ context_seen other.now }
    ensures { IfOk result.0 (λ o. IfOk result.1 (λ p. outcome_seen o ≡ outcome_seen p)) }
{
    (
        tn_machine::execute(alloc, code, one, arena),
        tn_machine::execute(alloc, again, other, arena),
    )
}
