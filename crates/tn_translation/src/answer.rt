// What a text answers.
ghost use Rattle.std.specs.Prelude.{◌≡◌, ◌++◌, ◌∷◌, [], IfOk};
ghost use Rattle.def_fun.specs.Answers.{fun_answer as answer_of, spec_of_text as spec_of};
ghost use Rattle.tn_spec.specs.Views.{dialect_of};
ghost use Rattle.tn_translation.specs.AnswerViews.{IsRefusalAnswer, RefusalIs};

use crate::fault::FunFault;
use crate::refusal::put_refusal;
use crate::spec::spec_of_text;
use std::alloc::{AllocError, Allocator};
use tn_spec::Dialect;

/// What a text answers (own): the specification's text or the line of the refusal, with a line feed; and
/// the refusal, where the text has no specification.
#[derive(Drop)]
pub struct FunAnswer<A: Allocator> {
    pub text: Vec<u8, A>,
    pub refusal: Option<FunFault>,
}

/// The line of a refusal, with a line feed.
fn refusal_answer<A: Allocator + Copy>(
    alloc: A,
    bytes: &[u8],
    fault: FunFault,
) -> Result<FunAnswer<A>, AllocError>
    ensures answer { IfOk result (λ a. IsRefusalAnswer bytes.now fault a) }
{
    if let FunFault::OutOfMemory = fault {
        return Err(AllocError);
    }
    let mut text = Vec::new(alloc);
    put_refusal(alloc, bytes, fault, &mut text)?;
    text.push(b'\n')?;
    Ok(FunAnswer {
        text,
        refusal: Some(fault),
    })
}

/// What a text answers, for a dialect: the specification's text, or the line of its refusal; and a line
/// feed. An error is refused memory.
pub fn fun_answer<A: Allocator + Copy>(
    alloc: A,
    bytes: &[u8],
    dialect: Dialect,
) -> Result<FunAnswer<A>, AllocError>
    ensures text { IfOk result (λ a. a.text.items ≡ answer_of (dialect_of dialect) bytes.now ++ 10 ∷ []) }
    ensures refusal { IfOk result (λ a. RefusalIs bytes.now a.refusal (spec_of (dialect_of dialect) bytes.now)) }
{
    match spec_of_text(alloc, bytes, dialect) {
        Ok(spec) => {
            let mut text = spec.text;
            text.push(b'\n')?;
            Ok(FunAnswer {
                text,
                refusal: None,
            })
        }
        Err(fault) => refusal_answer(alloc, bytes, fault),
    }
}
