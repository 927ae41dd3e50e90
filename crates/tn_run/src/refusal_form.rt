// What is written for a refusal: its line, an object of JSON, or nothing.
ghost use Rattle.std.specs.Prelude.{◌≡◌, IfOk};
ghost use Rattle.tn_refusal.specs.Refusals.{refusal_of};
ghost use Rattle.tn_run.specs.RefusalForms.{IsRefusalNote, IsRefusalObject, IsRefusalOutput, text_of_refusal};

use std::alloc::{AllocError, Allocator};
use tn_formats::refusal_json;
use tn_refusal::{Refusal, explain, refusal_bytes};

/// What is written for the refusal of a script (own).
#[derive(Clone, Copy, Debug, PartialEq, Eq)]
pub enum RefusalForm {
    /// The line of the refusal, as `refused 2 token at 17`.
    Line,
    /// An object of JSON with the number and the line of the refusal, its place, and why the text is refused.
    Json,
    /// Nothing: why the text is refused comes to standard error alone.
    Nothing,
}

/// The text that the words of a refusal are of: none where it is too long, and none where picks are refused.
fn text_of_refusal(text: &[u8], refusal: Refusal) -> &[u8]
    ensures { result.now ≡ text_of_refusal (refusal_of refusal) text.now }
{
    match refusal {
        Refusal::TooLong | Refusal::BadPicks => b"",
        Refusal::Token { .. }
        | Refusal::TooDeep { .. }
        | Refusal::TooLarge { .. }
        | Refusal::Form { .. }
        | Refusal::TooManyForms
        | Refusal::Duplicate { .. }
        | Refusal::Undeclared { .. }
        | Refusal::NotExported { .. }
        | Refusal::Unbound { .. }
        | Refusal::TracerTaken { .. }
        | Refusal::Arity { .. }
        | Refusal::Limit { .. } => text,
    }
}

/// What is said of a refusal, without the name of the text: the rule alone of a script that is too long and of picks,
/// whose text isn't kept.
fn refusal_note<A: Allocator + Copy>(
    alloc: A,
    text: &[u8],
    refusal: Refusal,
) -> Result<Vec<u8, A>, AllocError>
    ensures { IfOk result (λ v. IsRefusalNote text.now (refusal_of refusal) v.items) }
{
    match refusal {
        Refusal::TooLong => Vec::from_slice(alloc, b": a script has at most 1048576 bytes"),
        Refusal::BadPicks => Vec::from_slice(
            alloc,
            b": picks are numbers up to 4294967295 with one space between each two",
        ),
        Refusal::Token { .. }
        | Refusal::TooDeep { .. }
        | Refusal::TooLarge { .. }
        | Refusal::Form { .. }
        | Refusal::TooManyForms
        | Refusal::Duplicate { .. }
        | Refusal::Undeclared { .. }
        | Refusal::NotExported { .. }
        | Refusal::Unbound { .. }
        | Refusal::TracerTaken { .. }
        | Refusal::Arity { .. }
        | Refusal::Limit { .. } => explain(alloc, "", text, refusal),
    }
}

/// The object of a refusal of a text.
fn refusal_object<A: Allocator + Copy>(
    alloc: A,
    text: &[u8],
    refusal: Refusal,
) -> Result<Vec<u8, A>, AllocError>
    ensures { IfOk result (λ v. IsRefusalObject text.now (refusal_of refusal) v.items) }
{
    let line = refusal_bytes(alloc, refusal)?;
    let note = refusal_note(alloc, text, refusal)?;
    refusal_json(alloc, &line, &note)
}

/// What is written for the refusal of a text in this form.
///
/// # Errors
///
/// AllocError where memory was refused.
pub(crate) fn refusal_output<A: Allocator + Copy>(
    alloc: A,
    form: RefusalForm,
    text: &[u8],
    refusal: Refusal,
) -> Result<Vec<u8, A>, AllocError>
    ensures { IfOk result (λ v. IsRefusalOutput form
        (text_of_refusal (refusal_of refusal) text.now) (refusal_of refusal) v.items) }
{
    match form {
        RefusalForm::Line => refusal_bytes(alloc, refusal),
        RefusalForm::Json => refusal_object(alloc, text_of_refusal(text, refusal), refusal),
        RefusalForm::Nothing => Ok(Vec::new(alloc)),
    }
}
