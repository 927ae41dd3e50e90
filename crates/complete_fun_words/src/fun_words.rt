// A fun, with its text and its tokens.
ghost use Rattle.complete_fun_words.specs.Words.{AreWordsAlike};

use std::alloc::Allocator;
use tn_fun::ReadFault;
use tn_fun_words::FunWords;

/// `tn_fun_words::FunWords::of` has one answer: the text, or its refusal with its place.
pub fn of<'a, A: Allocator + Copy>(
    alloc: A,
    bytes: &'a [u8],
) -> (
    Result<FunWords<'a, A>, ReadFault>,
    Result<FunWords<'a, A>, ReadFault>,
)
    ensures { AreWordsAlike bytes.now result.0 result.1 }
{
    (FunWords::of(alloc, bytes), FunWords::of(alloc, bytes))
}
