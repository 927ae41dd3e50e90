// An output as JSON, with the number of the move of each message.
ghost use Rattle.std.specs.Prelude.{◌≡◌, ◌++◌, ◌∷◌, [], IfOk, OnOk, codes, get_or, map};
ghost use Rattle.json.specs.Token.{key};
ghost use Rattle.json.specs.Tree.{json_tokens};
ghost use Rattle.def_formats.specs.Sections.{section_lines};
ghost use Rattle.def_formats.specs.JsonRows.{json_line, json_lines, numbered_rows};
ghost use Rattle.def_formats.specs.MovedRows.{move_value, moved_row, moved_section, moved_json};
ghost use Rattle.def_formats.specs.MovedRows.{first_of, journal_part, journal_text};
ghost use Rattle.tn_formats.specs.Tokens.{AddsTokens, message_parts_tokens};

use crate::atom::{Section, section_of};
use crate::json_lines::{put_journal, put_replies};
use crate::lines::first_line;
use crate::parts::message_parts;
use crate::rows::{JsonText, Names, begin_row, end_row, no_rows, put_names, put_session_row};
use crate::section::{is_section_head, line_count, next_line};
use crate::values::{put_null_member, put_number_member, put_text_member};
use json::Writer;
use std::alloc::{AllocError, Allocator};

/// Writes the move of the message of a number, from 1; null where it has none.
fn put_move_of<A: Allocator>(
    writer: &mut Writer<A>,
    moves: &[u32],
    number: usize,
) -> Result<(), AllocError>
    ensures { AddsTokens result writer.old writer.new (key (codes "move") ∷ json_tokens (move_value moves.now number)) }
{
    match moves.get(number.saturating_sub(1)) {
        Some(found) => put_number_member(writer, "move", *found as usize),
        None => put_null_member(writer, "move"),
    }
}

/// Writes the kind, the pid and the text of a message.
fn put_parts<A: Allocator>(writer: &mut Writer<A>, line: &[u8]) -> Result<(), AllocError>
    ensures { AddsTokens result writer.old writer.new (message_parts_tokens line.now) }
{
    let (pid, kind) = message_parts(line);
    put_text_member(writer, "kind", kind)?;
    put_text_member(writer, "pid", pid)?;
    put_text_member(writer, "text", line)
}

/// Appends the row of a message with its move, by its line in a listing.
fn put_moved_row<A: Allocator>(
    out: JsonText<A>,
    names: Names<'_>,
    moves: &[u32],
    number: usize,
    line: &[u8],
) -> Result<JsonText<A>, AllocError>
    ensures { IfOk result (λ v. v.lines.items ≡ out.lines.items ++ json_line
        (moved_row names.entry.name.now names.entry.tracer.now moves.now number line.now)) }
{
    let JsonText { lines, row } = out;
    let mut writer = begin_row(row)?;
    put_names(&mut writer, names)?;
    put_number_member(&mut writer, "message", number)?;
    put_move_of(&mut writer, moves, number)?;
    put_parts(&mut writer, line)?;
    end_row(lines, writer)
}

/// Appends a row for each message of a section.
fn put_moved_messages<A: Allocator>(
    out: JsonText<A>,
    names: Names<'_>,
    moves: &[u32],
    text: &[u8],
) -> Result<JsonText<A>, AllocError>
    ensures { IfOk result (λ v. v.lines.items ≡ out.lines.items ++ json_lines (numbered_rows
        (moved_row names.entry.name.now names.entry.tracer.now moves.now) 1 (section_lines text.now))) }
{
    let mut out = out;
    let mut number = 0;
    let mut rest = text;
    while let Some((line, after)) = next_line(rest) {
        number += 1;
        out = put_moved_row(out, names, moves, number, line)?;
        rest = after;
    }
    Ok(out)
}

/// Appends the rows of a section, of its first line and the text after it.
fn put_moved_section<A: Allocator>(
    out: JsonText<A>,
    moves: &[u32],
    head: &[u8],
    text: &[u8],
) -> Result<JsonText<A>, AllocError>
    ensures { IfOk result (λ v. v.lines.items ≡
        out.lines.items ++ moved_section moves.now head.now (section_lines text.now)) }
{
    match section_of(head) {
        Section::Session { name, tracer } => {
            let names = Names { name, tracer };
            let out = put_session_row(out, names, line_count(text))?;
            put_moved_messages(out, names, moves, text)
        }
        Section::Replies => put_replies(out, text),
        Section::Journal => put_journal(out, text),
    }
}

/// The moves of the section of a number, from 0; none where there is no such section.
fn moves_at<M: Allocator>(moves: &[Vec<u32, M>], place: usize) -> &[u32]
    ensures { result.now ≡ get_or (map (λ v. v.items) moves.now) place [] }
{
    match moves.get(place) {
        Some(found) => found,
        None => &[],
    }
}

/// An output as JSON, a value a line, whose messages have these moves, session by session.
///
/// # Errors
///
/// AllocError where memory was refused.
pub fn moved_json<A: Allocator + Copy, M: Allocator>(
    alloc: A,
    moves: &[Vec<u32, M>],
    output: &[u8],
) -> Result<Vec<u8, A>, AllocError>
    ensures { IfOk result (λ v. v.items ≡ moved_json (map (λ m. m.items) moves.now) output.now) }
{
    let mut out = no_rows(alloc);
    let mut place = 0;
    let mut rest = output;
    while !rest.is_empty() {
        let (line, after) = first_line(rest);
        if is_section_head(line) {
            out = put_moved_section(out, moves_at(moves, place), line, after)?;
            place += 1;
        }
        rest = after;
    }
    Ok(out.lines)
}

/// The first line of a section; no byte where it has none.
fn first_of_section(text: &[u8]) -> &[u8]
    ensures { result.now ≡ first_of (section_lines text.now) }
{
    match next_line(text) {
        Some((line, _)) => line,
        None => b"",
    }
}

/// Appends the line of the journal, where the section is the journal.
fn put_journal_part<A: Allocator>(
    head: &[u8],
    text: &[u8],
    out: &mut Vec<u8, A>,
) -> Result<(), AllocError>
    ensures { OnOk result (out.new.items ≡ out.old.items ++ journal_part head.now (section_lines text.now)) }
{
    if head == b"== journal".as_slice() {
        out.extend_from_slice(first_of_section(text))?;
    }
    Ok(())
}

/// The line of the journal of an output.
///
/// # Errors
///
/// AllocError where memory was refused.
pub fn journal_text<A: Allocator>(alloc: A, output: &[u8]) -> Result<Vec<u8, A>, AllocError>
    ensures { IfOk result (λ v. v.items ≡ journal_text output.now) }
{
    let mut journal = Vec::new(alloc);
    let mut rest = output;
    while !rest.is_empty() {
        let (line, after) = first_line(rest);
        if is_section_head(line) {
            put_journal_part(line, after, &mut journal)?;
        }
        rest = after;
    }
    Ok(journal)
}
