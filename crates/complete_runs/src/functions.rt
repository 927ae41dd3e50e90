// The commands of a program.
ghost use Rattle.std.specs.Prelude.{◌≡◌};
ghost use Rattle.std.specs.Option.{option_map};
ghost use Rattle.tn_flags.specs.Views.{command_of};
ghost use Rattle.tn_program.specs.Views.{program_of};

use std::alloc::Allocator;
use tn_flags::Command;
use tn_program::Program;

/// `tn_trace::command_at` has one answer.
pub fn command_at<'a, A: Allocator>(
    one: &'a Program<A>,
    other: &'a Program<A>,
    number: u64,
) -> (Option<&'a Command<A>>, Option<&'a Command<A>>)
    requires { program_of one.now ≡ program_of other.now }
    ensures { option_map (λ c. command_of c.now) result.0 ≡ option_map (λ c. command_of c.now) result.1 }
{
    let first = tn_trace::command_at(one, number);
    let second = tn_trace::command_at(other, number);
    (first, second)
}
