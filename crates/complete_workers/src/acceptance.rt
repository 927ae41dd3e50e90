// The program of a text.
ghost use Rattle.std.specs.Prelude.{◌≡◌};
ghost use Rattle.tn_program.specs.Views.{program_of};
ghost use Rattle.complete_scripts.specs.Agreement.{Agree, answer_of};
ghost use Rattle.complete_workers.specs.Runs.{denial_seen};

use std::alloc::Allocator;
use tn_program::Program;
use tn_run::Denial;

/// `tn_run::accept` has one answer.
pub fn accept<A: Allocator + Copy>(
    alloc: A,
    one: &[u8],
    other: &[u8],
) -> (Result<Program<A>, Denial>, Result<Program<A>, Denial>)
    requires { one.now ≡ other.now }
    ensures { let reported = answer_of program_of denial_seen in Agree (reported result.0) (reported result.1) }
{
    let first = tn_run::accept(alloc, one);
    let second = tn_run::accept(alloc, other);
    (first, second)
}
