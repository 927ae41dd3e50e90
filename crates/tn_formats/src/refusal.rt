// A refusal as JSON.
ghost use Rattle.std.specs.Prelude.{◌≡◌, IfOk};
ghost use Rattle.def_formats.specs.RefusalRows.{between_ends, place_value, refusal_json};
ghost use Rattle.tn_formats.specs.Tokens.{AddsTokens, place_member};

use crate::parts::{cut_at, without_front};
use crate::rows::{begin_row, end_row, no_rows};
use crate::values::{put_numeral_member, put_text_member};
use json::Writer;
use std::alloc::{AllocError, Allocator};

/// A text without its first byte and its last.
fn between_ends(text: &[u8]) -> &[u8]
    ensures { result.now ≡ between_ends text.now }
{
    if text.len() < 2 {
        return b"";
    }
    &text[1..text.len() - 1]
}

/// Writes the member that says where a text is refused: null where that is nothing.
fn put_place_member<A: Allocator>(writer: &mut Writer<A>, place: &[u8]) -> Result<(), AllocError>
    ensures { AddsTokens result writer.old writer.new (place_member place.now) }
{
    if place.is_empty() {
        writer.key("place")?;
        return writer.null();
    }
    put_text_member(writer, "place", place)
}

/// A refusal as JSON, by its line, and by the line that says where and why a text is refused, without the name of the
/// text.
///
/// # Errors
///
/// AllocError where memory was refused.
pub fn refusal_json<A: Allocator + Copy>(
    alloc: A,
    line: &[u8],
    note: &[u8],
) -> Result<Vec<u8, A>, AllocError>
    ensures { IfOk result (λ v. v.items ≡ refusal_json line.now note.now) }
{
    let (line, _) = cut_at(line, b'\n');
    let (number, _) = cut_at(without_front(line, 8), b' ');
    let (head, why) = cut_at(note, b' ');
    let rows = no_rows(alloc);
    let mut writer = begin_row(rows.row)?;
    put_numeral_member(&mut writer, "refused", number)?;
    put_text_member(&mut writer, "line", line)?;
    put_place_member(&mut writer, between_ends(head))?;
    put_text_member(&mut writer, "why", why)?;
    let rows = end_row(rows.lines, writer)?;
    Ok(rows.lines)
}
