// The answer of a test of a fun's specification, in the fun's words.
ghost use Rattle.std.specs.Prelude.{◌≡◌};
ghost use Rattle.complete_code.specs.SpecTestAnswers.{AreAnsweredAlike};

use std::alloc::Allocator;
use tn_fun_words::FunWords;
use tn_verdict::{SpecTestFault, SpecTestInput};

/// `tn_fun_words::answer_in_words` has one answer.
pub fn answer_in_words<A: Allocator + Copy>(
    alloc: A,
    question: &SpecTestInput<'_>,
    one: &FunWords<'_, A>,
    other: &FunWords<'_, A>,
) -> (
    Result<Vec<u8, A>, SpecTestFault<A>>,
    Result<Vec<u8, A>, SpecTestFault<A>>,
)
    requires { one.now.bytes.now ≡ other.now.bytes.now }
    ensures { AreAnsweredAlike result.0 result.1 }
{
    (
        tn_fun_words::answer_in_words(alloc, question, one),
        tn_fun_words::answer_in_words(alloc, question, other),
    )
}
