// A run here and on a running node, side by side.
ghost use Rattle.std.specs.Prelude.{◌≡◌, IfOk};
ghost use Rattle.std.specs.Option.{option_map};
ghost use Rattle.def_script.specs.Exports.{exports_of};
ghost use Rattle.def_running_node.specs.NodeComparisons.{comparison_at_start};
ghost use Rattle.tn_program.specs.Views.{program_of};
ghost use Rattle.complete_running_node.specs.SameComparisons.{StandForOne, StandForOneOver};

use std::alloc::{AllocError, Allocator};
use tn_flags::{Command, Event};
use tn_node::Outlook;
use tn_program::Program;
use tn_running_node::{Comparison, LineKinds};
use tn_script::Function;

/// `tn_running_node::Comparison::new` has one answer.
pub fn new<A: Allocator + Copy>(
    alloc: A,
    one: &Program<A>,
    other: &Program<A>,
    session: Option<&str>,
) -> (
    Result<Comparison<A>, AllocError>,
    Result<Comparison<A>, AllocError>,
)
    requires { program_of one.now ≡ program_of other.now }
    ensures { IfOk result.0 (λ c. IfOk result.1 (λ d. StandForOne c d)) }
{
    (
        Comparison::new(alloc, one, session),
        Comparison::new(alloc, other, session),
    )
}

/// A command in a move of this pick, and the functions of the program.
#[derive(Clone, Copy)]
pub struct CommandMove<'a, A: Allocator> {
    pub pick: u32,
    pub functions: &'a [Function<A>],
    pub command: &'a Command<A>,
}

/// `tn_running_node::Comparison::obey` has one answer. It includes the comparison afterwards, and the lines. After a
/// refusal nothing of them is said, but that the text that was there is still a front of it.
pub fn obey<A: Allocator + Copy>(
    one: &mut Comparison<A>,
    other: &mut Comparison<A>,
    command_move: CommandMove<'_, A>,
    first: &mut Vec<u8, A>,
    second: &mut Vec<u8, A>,
) -> (Result<LineKinds, AllocError>, Result<LineKinds, AllocError>)
    requires comparisons { StandForOneOver command_move.functions.now one.old other.old }
    requires texts { first.old.items ≡ second.old.items }
    ensures kinds { IfOk result.0 (λ k. IfOk result.1 (λ l. k ≡ l)) }
    ensures lines { IfOk result.0 (λ _. IfOk result.1 (λ _. first.new.items ≡ second.new.items)) }
    ensures after { IfOk result.0 (λ _. IfOk result.1 (λ _.
        StandForOneOver command_move.entry.functions.now one.new other.new)) }
{
    (
        one.obey(
            command_move.pick,
            command_move.functions,
            command_move.command,
            first,
        ),
        other.obey(
            command_move.pick,
            command_move.functions,
            command_move.command,
            second,
        ),
    )
}

/// A step of the process of this pick, of which this was known before it, and its events.
#[derive(Clone, Copy)]
pub struct StepMove<'a, A: Allocator> {
    pub pick: u32,
    pub outlook: Outlook,
    pub events: &'a Vec<Event<A>, A>,
}

/// `tn_running_node::Comparison::see_move` has one answer. It includes the comparison afterwards, and the lines. After
/// a refusal nothing of them is said, but that the text that was there is still a front of it.
pub fn see_move<A: Allocator + Copy>(
    one: &mut Comparison<A>,
    other: &mut Comparison<A>,
    step: StepMove<'_, A>,
    first: &mut Vec<u8, A>,
    second: &mut Vec<u8, A>,
) -> (Result<LineKinds, AllocError>, Result<LineKinds, AllocError>)
    requires comparisons { StandForOne one.old other.old }
    requires texts { first.old.items ≡ second.old.items }
    ensures kinds { IfOk result.0 (λ k. IfOk result.1 (λ l. k ≡ l)) }
    ensures lines { IfOk result.0 (λ _. IfOk result.1 (λ _. first.new.items ≡ second.new.items)) }
    ensures after { IfOk result.0 (λ _. IfOk result.1 (λ _. StandForOne one.new other.new)) }
{
    (
        one.see_move(step.pick, step.outlook, step.events, first),
        other.see_move(step.pick, step.outlook, step.events, second),
    )
}
