// The picks of a journal's line.
ghost use Rattle.std.specs.Prelude.{◌≡◌, ◌==◌, ◌∷◌, ◌+◌, ◌<◌, [], map, length, MatchOption};
ghost use Rattle.std.specs.Prelude.{IfSome, position};
ghost use Rattle.std.specs.List.{count_by};
ghost use Rattle.def_formats.specs.Sections.{section_lines};
ghost use Rattle.json.specs.Json.{array};
ghost use Rattle.json.specs.Tree.{json_tokens};
ghost use Rattle.def_formats.specs.JsonRows.{items_from, numeral_value};
ghost use Rattle.def_formats.specs.Summaries.{journal_picks, picks_in};
ghost use Rattle.tn_formats.specs.Tokens.{AddsTokens};
ghost use Rattle.tn_formats.specs.Pieces.{pieces_apart};

use crate::section::next_line;
use crate::values::put_numeral;
use json::Writer;
use std::alloc::{AllocError, Allocator};

/// How many spaces the text has.
fn space_count(text: &[u8]) -> usize
    ensures { result ≡ count_by (λ b. b == 32) text.now }
{
    text.iter().filter(|b| **b == b' ').count()
}

/// How many picks a line has.
fn pick_count(line: &[u8]) -> usize
    ensures { result ≡ length (picks_in line.now) }
{
    if line.is_empty() {
        0
    } else {
        space_count(line) + 1
    }
}

/// The first line of a section; no byte where it has none.
pub(crate) fn journal_line(text: &[u8]) -> &[u8]
    ensures { picks_in result.now ≡ journal_picks (section_lines text.now) }
{
    match next_line(text) {
        Some((line, _)) => line,
        None => b"",
    }
}

/// How many picks a journal has.
pub(crate) fn journal_length(text: &[u8]) -> usize
    ensures { result ≡ length (journal_picks (section_lines text.now)) }
{
    pick_count(journal_line(text))
}

/// Where the first space stands.
fn space_at(text: &[u8]) -> Option<usize>
    ensures { result ≡ position (λ b. b == 32) text.now }
{
    text.iter().position(|b| *b == b' ')
}

/// What is before the first space of a text, and what is after it, where there is one.
fn first_pick(text: &[u8]) -> (&[u8], Option<&[u8]>)
    ensures cut { MatchOption result.1 (pieces_apart text.now ≡ result.0.now ∷ [])
        (λ r. pieces_apart text.now ≡ result.0.now ∷ pieces_apart r.now) }
    ensures shorter { IfSome result.1 (λ rest. length rest.now < length text.now) }
{
    match space_at(text) {
        None => (text, None),
        Some(end) => (&text[..end], Some(&text[end + 1..])),
    }
}

/// Writes the picks of a line as an array.
pub(crate) fn put_picks<A: Allocator>(writer: &mut Writer<A>, line: &[u8]) -> Result<(), AllocError>
    ensures { AddsTokens result writer.old writer.new
        (json_tokens (array (items_from (map numeral_value (picks_in line.now))))) }
{
    writer.begin_array()?;
    let mut rest = if line.is_empty() { None } else { Some(line) };
    while let Some(text) = rest {
        let (pick, more) = first_pick(text);
        put_numeral(writer, pick)?;
        rest = more;
    }
    writer.end_array()
}
