// The whole line.
ghost use Rattle.std.specs.Prelude.{◌≡◌, ◌++◌, IfOk, OnOk, map};
ghost use Rattle.tn_refusal.specs.Lines.{printable_byte, IsExplained};
ghost use Rattle.def_wording.specs.SyntaxTexts.{of_script, of_term};
ghost use Rattle.tn_refusal.specs.Refusals.{refusal_of};
ghost use Rattle.tn_refusal.specs.TextViews.{kind_seen};

use crate::detail::detail_of;
use crate::location::{front, mark_of};
use crate::position::TextKind;
use crate::refusal::Refusal;
use crate::words::words_of;
use std::alloc::{AllocError, Allocator};

/// The byte, or a question mark where it isn't printable.
fn shown_byte(b: u8) -> u8
    ensures { result ≡ printable_byte b }
{
    if 32 <= b && b <= 126 { b } else { b'?' }
}

/// Appends the bytes as they are shown; after an `Err` some may stand there.
fn append_shown<A: Allocator>(line: &mut Vec<u8, A>, bytes: &[u8]) -> Result<(), AllocError>
    ensures { OnOk result (line.new.items ≡ line.old.items ++ map printable_byte bytes.now) }
{
    for b in bytes {
        line.push(shown_byte(*b))?;
    }
    Ok(())
}

/// The line of a refused text of this kind.
fn line_of<A: Allocator + Copy>(
    alloc: A,
    name: &str,
    text: &[u8],
    refusal: Refusal,
    kind: TextKind,
) -> Result<Vec<u8, A>, AllocError>
    ensures { IfOk result (λ v. IsExplained (kind_seen kind) name.now text.now (refusal_of refusal) v.items) }
{
    let mark = mark_of(alloc, text, refusal)?;
    let mut line = front(alloc, name, mark.location)?;
    line.extend_from_slice(words_of(refusal))?;
    let found = detail_of(alloc, text, &mark, refusal, kind)?;
    append_shown(&mut line, &found)?;
    Ok(line)
}

/// The line that a refused text can be mended by, without a line feed. It is the name, then `:LINE:COLUMN: `
/// of the refused token, `:LINE: form N: ` of the refused form, or `: ` of the whole text, then the words of
/// the rule, and then what breaks it, after `: `, where that can be found by looking through the text. For
/// refusal 20 the text is that of the picks. Where the text isn't refused so, the line may say less.
///
/// The contract gives every word of it but what stands at a refused token: of that it gives the words, for something
/// that stands there.
///
/// # Errors
///
/// AllocError where memory was refused.
pub fn explain<A: Allocator + Copy>(
    alloc: A,
    name: &str,
    text: &[u8],
    refusal: Refusal,
) -> Result<Vec<u8, A>, AllocError>
    ensures { IfOk result (λ v. IsExplained of_script name.now text.now (refusal_of refusal) v.items) }
{
    line_of(alloc, name, text, refusal, TextKind::Script)
}

/// The line that a text can be mended by which should be one term, without a line feed: as that of `explain`, with a
/// term in the place of a form, and the end of the text in that of a full stop.
///
/// # Errors
///
/// AllocError where memory was refused.
pub fn explain_term<A: Allocator + Copy>(
    alloc: A,
    name: &str,
    text: &[u8],
    refusal: Refusal,
) -> Result<Vec<u8, A>, AllocError>
    ensures { IfOk result (λ v. IsExplained of_term name.now text.now (refusal_of refusal) v.items) }
{
    line_of(alloc, name, text, refusal, TextKind::Term)
}
