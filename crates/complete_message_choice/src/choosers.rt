// The sessions of a run, which choose its moves.
ghost use Rattle.std.specs.Prelude.{◌≡◌, IfOk, OnOk};
ghost use Rattle.tn_program.specs.Views.{program_of};
ghost use Rattle.complete_message_choice.specs.SameChoosers.{ChooseAlike, ChooseAlikeOver};

use std::alloc::{AllocError, Allocator};
use tn_flags::{Command, Event};
use tn_message_choice::{Choosers, MessageQuestion};
use tn_program::Program;
use tn_script::Function;

/// `tn_message_choice::Choosers::new` has one answer.
pub fn new<A: Allocator + Copy>(
    alloc: A,
    one: &Program<A>,
    other: &Program<A>,
) -> (
    Result<Choosers<A>, AllocError>,
    Result<Choosers<A>, AllocError>,
)
    requires { program_of one.now ≡ program_of other.now }
    ensures { IfOk result.0 (λ c. IfOk result.1 (λ d. ChooseAlike c d)) }
{
    (Choosers::new(alloc, one), Choosers::new(alloc, other))
}

/// `tn_message_choice::Choosers::see` has one answer. It includes the sessions afterwards. After a refusal nothing of
/// them is said.
pub fn see<A: Allocator + Copy>(
    one: &mut Choosers<A>,
    other: &mut Choosers<A>,
    question: &MessageQuestion<'_>,
    events: &Vec<Event<A>, A>,
) -> (Result<bool, AllocError>, Result<bool, AllocError>)
    requires { ChooseAlike one.old other.old }
    ensures answer { IfOk result.0 (λ b. IfOk result.1 (λ d. b ≡ d)) }
    ensures after { IfOk result.0 (λ _. IfOk result.1 (λ _. ChooseAlike one.new other.new)) }
{
    (one.see(question, events), other.see(question, events))
}

/// `tn_message_choice::Choosers::obey` has one answer: the sessions afterwards. After a refusal nothing of them is
/// said.
pub fn obey<A: Allocator + Copy>(
    one: &mut Choosers<A>,
    other: &mut Choosers<A>,
    functions: &[Function<A>],
    command: &Command<A>,
) -> (Result<(), AllocError>, Result<(), AllocError>)
    requires { ChooseAlikeOver functions.now one.old other.old }
    ensures { OnOk result.0 (OnOk result.1 (ChooseAlikeOver functions.now one.new other.new)) }
{
    (one.obey(functions, command), other.obey(functions, command))
}
