// Values of JSON, and members of an object.
ghost use Rattle.std.specs.Prelude.{◌≡◌, ◌∷◌, [], MatchOption, false, true, if◌then◌else◌, decimal, map};
ghost use Rattle.json.specs.Json.{array};
ghost use Rattle.json.specs.Token.{boolean, key, null, number, string};
ghost use Rattle.json.specs.Word.{after_number};
ghost use Rattle.json.specs.Tree.{json_tokens};
ghost use Rattle.def_formats.specs.JsonRows.{are_ascii, is_whole, items_from, number_value, numeral_value, text_value};
ghost use Rattle.tn_formats.specs.Tokens.{AddsTokens, text_member, numeral_member, number_member};

use json::{Writer, is_number};
use std::alloc::{AllocError, Allocator};
use std::str::from_utf8;

/// Whether each byte is of ASCII.
fn are_ascii(bytes: &[u8]) -> bool
    ensures { result ≡ are_ascii bytes.now }
{
    bytes.iter().all(|b| *b < 128)
}

/// The text of bytes that are all of ASCII.
fn ascii_text(bytes: &[u8]) -> Option<&str>
    ensures { MatchOption result (are_ascii bytes.now ≡ false)
        (λ s. (are_ascii bytes.now ≡ true) × (s.now ≡ bytes.now)) }
{
    if !are_ascii(bytes) {
        return None;
    }
    match from_utf8(bytes) {
        Ok(text) => Some(text),
        Err(_) => None,
    }
}

/// Writes a text as a string, or null where it isn't of ASCII.
fn put_text<A: Allocator>(writer: &mut Writer<A>, text: &[u8]) -> Result<(), AllocError>
    ensures { AddsTokens result writer.old writer.new (json_tokens (text_value text.now)) }
{
    match ascii_text(text) {
        Some(text) => writer.string(text),
        None => writer.null(),
    }
}

/// Writes a text of ASCII as the number that it is, or as a string.
fn put_numeral_text<A: Allocator>(writer: &mut Writer<A>, text: &str) -> Result<(), AllocError>
    ensures { AddsTokens result writer.old writer.new
        (if is_whole (after_number text.now) then number text.now ∷ [] else string text.now ∷ []) }
{
    if is_number(text) {
        writer.number(text)
    } else {
        writer.string(text)
    }
}

/// Writes the text of a number as that number, and any other as `put_text` does.
pub(crate) fn put_numeral<A: Allocator>(
    writer: &mut Writer<A>,
    text: &[u8],
) -> Result<(), AllocError>
    ensures { AddsTokens result writer.old writer.new (json_tokens (numeral_value text.now)) }
{
    match ascii_text(text) {
        Some(text) => put_numeral_text(writer, text),
        None => writer.null(),
    }
}

/// Writes a member that is a text of ASCII: a string, or null where the text isn't one.
///
/// # Errors
///
/// AllocError where memory was refused.
pub fn put_text_member<A: Allocator>(
    writer: &mut Writer<A>,
    name: &str,
    text: &[u8],
) -> Result<(), AllocError>
    ensures { AddsTokens result writer.old writer.new (text_member name.now text.now) }
{
    writer.key(name)?;
    put_text(writer, text)
}

/// Writes a member that is the number of a text.
pub(crate) fn put_numeral_member<A: Allocator>(
    writer: &mut Writer<A>,
    name: &str,
    text: &[u8],
) -> Result<(), AllocError>
    ensures { AddsTokens result writer.old writer.new (numeral_member name.now text.now) }
{
    writer.key(name)?;
    put_numeral(writer, text)
}

/// Writes a member that is a number.
///
/// # Errors
///
/// AllocError where memory was refused.
pub fn put_number_member<A: Allocator>(
    writer: &mut Writer<A>,
    name: &str,
    number: usize,
) -> Result<(), AllocError>
    ensures { AddsTokens result writer.old writer.new (number_member name.now number) }
{
    writer.key(name)?;
    writer.u64(number as u64)
}

/// Writes a member that is true or false.
///
/// # Errors
///
/// AllocError where memory was refused.
pub fn put_boolean_member<A: Allocator>(
    writer: &mut Writer<A>,
    name: &str,
    value: bool,
) -> Result<(), AllocError>
    ensures { AddsTokens result writer.old writer.new (key name.now ∷ boolean value ∷ []) }
{
    writer.key(name)?;
    writer.boolean(value)
}

/// Writes a member that is null.
pub(crate) fn put_null_member<A: Allocator>(
    writer: &mut Writer<A>,
    name: &str,
) -> Result<(), AllocError>
    ensures { AddsTokens result writer.old writer.new (key name.now ∷ null ∷ []) }
{
    writer.key(name)?;
    writer.null()
}

/// Writes numbers as an array.
///
/// # Errors
///
/// AllocError where memory was refused.
pub fn put_numbers<A: Allocator>(writer: &mut Writer<A>, numbers: &[u32]) -> Result<(), AllocError>
    ensures { AddsTokens result writer.old writer.new
        (json_tokens (array (items_from (map number_value numbers.now)))) }
{
    writer.begin_array()?;
    for number in numbers {
        writer.u64(*number as u64)?;
    }
    writer.end_array()
}
