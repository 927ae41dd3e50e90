// The program of forms.
ghost use Rattle.std.specs.Prelude.{◌≡◌, map};
ghost use Rattle.tn_script.specs.Views.{form_of};
ghost use Rattle.tn_program.specs.Views.{program_of};
ghost use Rattle.tn_program.specs.Faults.{broken_of};
ghost use Rattle.complete_scripts.specs.Agreement.{Agree, answer_of};

use std::alloc::Allocator;
use tn_program::{Program, RuleFault};
use tn_script::Form;

/// `tn_program::program` has one answer.
pub fn program<A: Allocator + Copy>(
    alloc: A,
    one: Vec<Form<A>, A>,
    other: Vec<Form<A>, A>,
) -> (Result<Program<A>, RuleFault>, Result<Program<A>, RuleFault>)
    requires { map form_of one.items ≡ map form_of other.items }
    ensures { let told = answer_of program_of broken_of in Agree (told result.0) (told result.1) }
{
    let first = tn_program::program(alloc, one);
    let second = tn_program::program(alloc, other);
    (first, second)
}
