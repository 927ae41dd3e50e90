// A specification and what it is matched with, as texts.
ghost use Rattle.std.specs.Prelude.{◌≡◌};
ghost use Rattle.tn_flags.specs.Views.{table_of};
ghost use Rattle.complete_code.specs.SpecTestAnswers.{AreAnsweredAlike, AreTermsAlike};

use std::alloc::Allocator;
use tn_flags::FlagTable;
use tn_spec::Dialect;
use tn_verdict::{SpecTestFault, SpecTestInput, SpecTestTerms};

/// `tn_verdict::terms_of` has one answer.
pub fn terms_of<A: Allocator + Copy>(
    alloc: A,
    question: &SpecTestInput<'_>,
) -> (
    Result<SpecTestTerms<A>, SpecTestFault<A>>,
    Result<SpecTestTerms<A>, SpecTestFault<A>>,
)
    ensures { AreTermsAlike result.0 result.1 }
{
    (
        tn_verdict::terms_of(alloc, question),
        tn_verdict::terms_of(alloc, question),
    )
}

/// `tn_verdict::spec_test_flags` has one answer.
pub fn spec_test_flags(dialect: Dialect, self_pid: u32) -> (FlagTable, FlagTable)
    ensures { table_of result.0 ≡ table_of result.1 }
{
    (
        tn_verdict::spec_test_flags(dialect, self_pid),
        tn_verdict::spec_test_flags(dialect, self_pid),
    )
}

/// `tn_verdict::answer` has one answer.
pub fn answer<A: Allocator + Copy>(
    alloc: A,
    question: &SpecTestInput<'_>,
) -> (
    Result<Vec<u8, A>, SpecTestFault<A>>,
    Result<Vec<u8, A>, SpecTestFault<A>>,
)
    ensures { AreAnsweredAlike result.0 result.1 }
{
    (
        tn_verdict::answer(alloc, question),
        tn_verdict::answer(alloc, question),
    )
}
