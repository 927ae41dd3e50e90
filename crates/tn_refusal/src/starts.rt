// Where the forms of a text begin.
ghost use Rattle.std.specs.Prelude.{◌≡◌, ℕ, ◌≤◌, ◌-◌, List, length, drop, IfOk};
ghost use Rattle.def_term.specs.Tree.{Tree};
ghost use Rattle.def_text.specs.Tokens.{TokenSpan};
ghost use Rattle.def_text.specs.Forms.{after_stops, FormBegins};
ghost use Rattle.def_text.specs.Scripts.{SpellsTerms};
ghost use Rattle.tn_refusal.specs.Skims.{AreAhead};
ghost use Rattle.tn_refusal.specs.Pieces.{SpellsFirst};
ghost use Rattle.tn_refusal.specs.Starts.{IsListable, IsFormOffset};

use crate::skim::{next_start, past_stop, past_stops};
use std::alloc::{AllocError, Allocator};
use tn_text::{TextFault, tokens};

/// The offset after the full stop that the form with this number, from 1, has before it: 0 for the first form, and the
/// end where there are fewer.
pub fn before_form(text: &[u8], form: usize) -> usize
    ensures tokens { (xs : List TokenSpan) → AreAhead text.now 0 xs
        → AreAhead text.now result (after_stops (form - 1) xs) }
    ensures fits { result ≤ length text.now }
{
    past_stops(text, form.saturating_sub(1))
}

/// The offset of the first token of the form with this number, from 1, or the end where no token is left: of a text
/// of tokens. It goes over the bytes up to there once and takes no memory.
pub fn form_start(text: &[u8], form: usize) -> usize
    ensures { IsListable text.now → FormBegins text.now form result }
{
    next_start(text, before_form(text, form))
}

/// The bytes of a form from this offset on, which is after the full stop before it: up to its own full stop, or to the
/// end.
pub fn bytes_of_form(text: &[u8], before: usize) -> &[u8]
    requires { before ≤ length text.now }
    ensures { (ts : List Tree) (n : ℕ) → SpellsTerms text.now ts
        → ((xs : List TokenSpan) → AreAhead text.now 0 xs → AreAhead text.now before (after_stops n xs))
        → SpellsFirst result.now (drop n ts) }
{
    &text[before..past_stop(text, before)]
}

/// The offset in bytes, from 0, of the first token of the form with this number, from 1: of the token after
/// as many full stops as forms come before it, or the text's length where no token is left. None where the
/// text is longer than 1,048,576 bytes, or has bytes that form no token. It takes linear time, and memory for
/// the tokens.
///
/// # Errors
///
/// AllocError where memory was refused.
pub fn form_offset<A: Allocator>(
    alloc: A,
    text: &[u8],
    form: usize,
) -> Result<Option<usize>, AllocError>
    ensures { IfOk result (λ o. IsFormOffset text.now form o) }
{
    match tokens(alloc, text) {
        Ok(_tokens) => Ok(Some(form_start(text, form))),
        Err(TextFault::OutOfMemory) => Err(AllocError),
        Err(TextFault::TooLong) => Ok(None),
        Err(TextFault::Token { .. }) => Ok(None),
        Err(TextFault::TooDeep { .. }) => Ok(None),
        Err(TextFault::TooLarge { .. }) => Ok(None),
    }
}
