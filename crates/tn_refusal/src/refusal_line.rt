// The line of a refusal, with its number.
ghost use Rattle.std.specs.Prelude.{◌≡◌, ◌++◌, IfOk};
ghost use Rattle.def_script.specs.Script.{refusal_line};
ghost use Rattle.tn_refusal.specs.Refusals.{refusal_of, number_text};
ghost use Rattle.def_run.specs.Output.{refusal_text};

use crate::refusal::Refusal;
use itoa::Buffer;
use std::alloc::{AllocError, Allocator};

/// The words of a refusal's line, and the place or form that stands after them.
fn numbered_words(refusal: Refusal) -> (&'static [u8], Option<usize>)
    ensures { refusal_line (refusal_of refusal) ≡ result.0.now ++ number_text result.1 }
{
    match refusal {
        Refusal::TooLong => (b"refused 1 too long", None),
        Refusal::Token { at } => (b"refused 2 token at ", Some(at)),
        Refusal::TooDeep { at } => (b"refused 3 too deep at ", Some(at)),
        Refusal::TooLarge { at } => (b"refused 4 too large at ", Some(at)),
        Refusal::Form { form } => (b"refused 5 form ", Some(form)),
        Refusal::TooManyForms => (b"refused 6 too many forms", None),
        Refusal::Duplicate { form } => (b"refused 7 duplicate in form ", Some(form)),
        Refusal::Undeclared { form } => (b"refused 8 undeclared in form ", Some(form)),
        Refusal::NotExported { form } => (b"refused 9 not exported in form ", Some(form)),
        Refusal::Unbound { form } => (b"refused 10 unbound in form ", Some(form)),
        Refusal::TracerTaken { form } => (b"refused 11 tracer taken in form ", Some(form)),
        Refusal::Arity { form } => (b"refused 12 arity in form ", Some(form)),
        Refusal::Limit { form } => (b"refused 13 limit in form ", Some(form)),
        Refusal::BadPicks => (b"refused 20 bad picks", None),
    }
}

/// The line of a refusal, with its line feed.
pub fn refusal_bytes<A: Allocator>(alloc: A, refusal: Refusal) -> Result<Vec<u8, A>, AllocError>
    ensures { IfOk result (λ v. v.items ≡ refusal_text (refusal_of refusal)) }
{
    let (words, number) = numbered_words(refusal);
    let mut line = Vec::from_slice(alloc, words)?;
    if let Some(number) = number {
        line.extend_from_slice(Buffer::new().format(number).as_bytes())?;
    }
    line.push(b'\n')?;
    Ok(line)
}
