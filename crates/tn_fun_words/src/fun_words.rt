// A fun, with its text and its tokens.
ghost use Rattle.std.specs.Prelude.{◌≡◌, map, Ok};
ghost use Rattle.def_fun.specs.Answers.{fun_of_text};
ghost use Rattle.def_fun.specs.Scan.{fun_spans};
ghost use Rattle.tn_fun.specs.Clauses.{fun_clauses_seen};
ghost use Rattle.tn_fun.specs.Tokens.{span_seen};

use std::alloc::Allocator;
use tn_fun::{Clause, ReadFault, Token, read_fun, tokens};

/// A text that is a fun, with its tokens and its clauses.
#[derive(Drop)]
pub struct FunWords<'a, A: Allocator> {
    /// The text.
    pub bytes: &'a [u8],
    pub(crate) tokens: Vec<Token, A>,
    pub(crate) clauses: Vec<Clause<A>, A>,
    ghost listed: { map (span_seen bytes.now) tokens.items ≡ fun_spans bytes.now },
    ghost read: { ∥ fun_of_text bytes.now ≡ Ok (fun_clauses_seen bytes.now clauses.items) ∥₁ },
}

impl<'a, A: Allocator + Copy> FunWords<'a, A> {
    ghost use Rattle.std.specs.Prelude.{MatchResult};
    ghost use Rattle.tn_fun.specs.Answers.{IsRefusedFun};

    /// The text, where it is a fun; else why it is none.
    pub fn of(alloc: A, bytes: &'a [u8]) -> Result<FunWords<'a, A>, ReadFault>
        ensures { MatchResult result (λ w. w.bytes.now ≡ bytes.now)
            (λ fault. IsRefusedFun bytes.now fault (fun_of_text bytes.now)) }
    {
        let clauses = read_fun(alloc, bytes)?;
        let Ok(tokens) = tokens(alloc, bytes) else {
            return Err(ReadFault::OutOfMemory);
        };
        Ok(FunWords {
            bytes,
            tokens,
            clauses,
        })
    }
}
