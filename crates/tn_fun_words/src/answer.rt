// The answer of a test of a fun's specification, in the fun's words.
ghost use Rattle.std.specs.Prelude.{IfOk, MatchResult};
ghost use Rattle.tn_verdict.specs.SpecTestInputs.{AreTermsOf, IsAnswerTo, IsNoAnswer};
ghost use Rattle.tn_fun_words.specs.FunAnswers.{IsFunAnswerTo};

use crate::fun_words::FunWords;
use crate::reason::after_front;
use crate::test_lines::put_front;
use bumpalo::Bump;
use std::alloc::{AllocError, Allocator};
use tn_action::Context;
use tn_guard::ListView;
use tn_term::{Alive, PROCESSES};
use tn_verdict::{SpecTestFault, SpecTestInput, SpecTestTerms, answer, spec_test_flags, terms_of};

/// The answer in the words of a fun, of that in the words of the specification: the lines up to the message are written
/// in both, and those after it are the same.
fn in_words<A: Allocator + Copy>(
    alloc: A,
    question: &SpecTestInput<'_>,
    terms: &SpecTestTerms<A>,
    fun: &FunWords<'_, A>,
    plain: &[u8],
) -> Result<Vec<u8, A>, AllocError>
    ensures { IfOk result (λ v. AreTermsOf question.now terms.now → IsAnswerTo question.now plain.now
        → IsFunAnswerTo question.now fun.now.bytes.now v.items) }
{
    let alive = Alive::first(PROCESSES);
    let flags = spec_test_flags(question.dialect, question.self_pid);
    let context = Context {
        list: ListView::Terms(&terms.list),
        self_pid: question.self_pid,
        caller: terms.caller.as_ref(),
        alive: &alive,
        flags: &flags,
    };
    let arena = Bump::new(alloc);
    let mut front = Vec::new(alloc);
    put_front(alloc, &arena, &terms.spec, &context, None, &mut front)?;
    let mut text = Vec::new(alloc);
    put_front(alloc, &arena, &terms.spec, &context, Some(fun), &mut text)?;
    text.extend_from_slice(after_front(plain, &front))?;
    Ok(text)
}

/// What becomes of the clauses of the specification of a fun, in lines in the fun's words.
///
/// # Errors
///
/// Those of `answer`.
pub fn answer_in_words<A: Allocator + Copy>(
    alloc: A,
    question: &SpecTestInput<'_>,
    fun: &FunWords<'_, A>,
) -> Result<Vec<u8, A>, SpecTestFault<A>>
    ensures { MatchResult result (λ text. IsFunAnswerTo question.now fun.now.bytes.now text.items)
        (λ fault. IsNoAnswer question.now fault) }
{
    let plain = answer(alloc, question)?;
    let terms = terms_of(alloc, question)?;
    match in_words(alloc, question, &terms, fun, &plain) {
        Ok(text) => Ok(text),
        Err(_) => Err(SpecTestFault::OutOfMemory),
    }
}
