// What a text is read as.
ghost use Rattle.std.specs.Prelude.{map};
ghost use Rattle.tn_term.specs.Views.{tree_of};
ghost use Rattle.complete_terms.specs.Answers.{AreAlike};

use std::alloc::Allocator;
use tn_term::Term;
use tn_text::{TextFault, Token, read_term, read_terms, tokens};

/// `tn_text::tokens` has one answer: the tokens, or the fault with its place.
pub fn all_tokens<A: Allocator + Copy>(
    alloc: A,
    bytes: &[u8],
) -> (
    Result<Vec<Token, A>, TextFault>,
    Result<Vec<Token, A>, TextFault>,
)
    ensures { AreAlike (λ v. v.items) result.0 result.1 }
{
    (tokens(alloc, bytes), tokens(alloc, bytes))
}

/// `tn_text::read_term` has one answer: the term, or the fault with its place.
pub fn one_term<A: Allocator + Copy>(
    alloc: A,
    bytes: &[u8],
) -> (Result<Term<A>, TextFault>, Result<Term<A>, TextFault>)
    ensures { AreAlike tree_of result.0 result.1 }
{
    let first = read_term(alloc, bytes);
    let second = read_term(alloc, bytes);
    (first, second)
}

/// `tn_text::read_terms` has one answer: the terms, or the fault with its place.
pub fn all_terms<A: Allocator + Copy>(
    alloc: A,
    bytes: &[u8],
) -> (
    Result<Vec<Term<A>, A>, TextFault>,
    Result<Vec<Term<A>, A>, TextFault>,
)
    ensures { AreAlike (λ v. map tree_of v.items) result.0 result.1 }
{
    let first = read_terms(alloc, bytes);
    let second = read_terms(alloc, bytes);
    (first, second)
}
