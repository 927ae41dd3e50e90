// The specification of a fun's text.
ghost use Rattle.std.specs.Prelude.{◌≡◌, IfOk};
ghost use Rattle.complete_funs.specs.SpecAnswers.{AreSpecsAlike, AreAnswersAlike};

use std::alloc::{AllocError, Allocator};
use tn_spec::Dialect;
use tn_translation::{FunAnswer, FunFault, FunSpec};

/// `tn_translation::spec_of_text` has one answer: the term and its text, or the refusal with its place.
pub fn spec_of_text<A: Allocator + Copy>(
    alloc: A,
    bytes: &[u8],
    dialect: Dialect,
) -> (Result<FunSpec<A>, FunFault>, Result<FunSpec<A>, FunFault>)
    ensures { AreSpecsAlike bytes.now result.0 result.1 }
{
    let first = tn_translation::spec_of_text(alloc, bytes, dialect);
    let second = tn_translation::spec_of_text(alloc, bytes, dialect);
    (first, second)
}

/// `tn_translation::fun_answer` has one answer: its text, and the refusal with its place.
pub fn fun_answer<A: Allocator + Copy>(
    alloc: A,
    bytes: &[u8],
    dialect: Dialect,
) -> (
    Result<FunAnswer<A>, AllocError>,
    Result<FunAnswer<A>, AllocError>,
)
    ensures { IfOk result.0 (λ a. IfOk result.1 (λ b. AreAnswersAlike bytes.now a b)) }
{
    let first = tn_translation::fun_answer(alloc, bytes, dialect);
    let second = tn_translation::fun_answer(alloc, bytes, dialect);
    (first, second)
}
