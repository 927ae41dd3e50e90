// The JSON of an output, of an account and of any other text.
ghost use Rattle.std.specs.Prelude.{◌≡◌, ◌++◌, IfOk};
ghost use Rattle.def_formats.specs.Lines.{text_lines};
ghost use Rattle.def_formats.specs.Sections.{section_lines};
ghost use Rattle.def_formats.specs.Summaries.{journal_picks};
ghost use Rattle.def_formats.specs.JsonRows.{json_line, json_lines, numbered_rows, message_row, reply_row, journal_row};
ghost use Rattle.def_formats.specs.JsonRows.{is_indented, section_json, output_json, account_json, text_json};

use crate::atom::{Section, section_of};
use crate::lines::first_line;
use crate::picks::{journal_line, put_picks};
use crate::rows::{
    JsonText, Names, begin_row, end_row, no_rows, put_line_row, put_made_row, put_message_row,
    put_move_row, put_reply_row, put_session_row,
};
use crate::section::{is_section_head, line_count, next_line};
use std::alloc::{AllocError, Allocator};

/// Appends a row for each message of a section.
fn put_messages<A: Allocator>(
    out: JsonText<A>,
    names: Names<'_>,
    text: &[u8],
) -> Result<JsonText<A>, AllocError>
    ensures { IfOk result (λ v. v.lines.items ≡ out.lines.items ++ json_lines (numbered_rows
        (message_row names.entry.name.now names.entry.tracer.now) 1 (section_lines text.now))) }
{
    let mut out = out;
    let mut number = 0;
    let mut rest = text;
    while let Some((line, after)) = next_line(rest) {
        number += 1;
        out = put_message_row(out, names, number, line)?;
        rest = after;
    }
    Ok(out)
}

/// Appends a row for each reply of a section.
pub(crate) fn put_replies<A: Allocator>(
    out: JsonText<A>,
    text: &[u8],
) -> Result<JsonText<A>, AllocError>
    ensures { IfOk result (λ v. v.lines.items ≡
        out.lines.items ++ json_lines (numbered_rows reply_row 1 (section_lines text.now))) }
{
    let mut out = out;
    let mut number = 0;
    let mut rest = text;
    while let Some((line, after)) = next_line(rest) {
        number += 1;
        out = put_reply_row(out, number, line)?;
        rest = after;
    }
    Ok(out)
}

/// Appends the row of the journal.
pub(crate) fn put_journal<A: Allocator>(
    out: JsonText<A>,
    text: &[u8],
) -> Result<JsonText<A>, AllocError>
    ensures { IfOk result (λ v. v.lines.items ≡
        out.lines.items ++ json_line (journal_row (journal_picks (section_lines text.now)))) }
{
    let JsonText { lines, row } = out;
    let mut writer = begin_row(row)?;
    writer.key("journal")?;
    put_picks(&mut writer, journal_line(text))?;
    end_row(lines, writer)
}

/// Appends the rows of a section, of its first line and the text after it.
fn put_section<A: Allocator>(
    out: JsonText<A>,
    head: &[u8],
    text: &[u8],
) -> Result<JsonText<A>, AllocError>
    ensures { IfOk result (λ v. v.lines.items ≡ out.lines.items ++ section_json head.now (section_lines text.now)) }
{
    match section_of(head) {
        Section::Session { name, tracer } => {
            let names = Names { name, tracer };
            let out = put_session_row(out, names, line_count(text))?;
            put_messages(out, names, text)
        }
        Section::Replies => put_replies(out, text),
        Section::Journal => put_journal(out, text),
    }
}

/// An output as JSON, a value a line: the sessions with their messages, the replies and the journal.
///
/// # Errors
///
/// AllocError where memory was refused.
pub(crate) fn output_json<A: Allocator + Copy>(
    alloc: A,
    output: &[u8],
) -> Result<Vec<u8, A>, AllocError>
    ensures { IfOk result (λ v. v.items ≡ output_json output.now) }
{
    let mut out = no_rows(alloc);
    let mut rest = output;
    while !rest.is_empty() {
        let (line, after) = first_line(rest);
        if is_section_head(line) {
            out = put_section(out, line, after)?;
        }
        rest = after;
    }
    Ok(out.lines)
}

/// Whether a line is of what a session makes of a move.
fn is_indented(line: &[u8]) -> bool
    ensures { result ≡ is_indented line.now }
{
    line.starts_with(b"  ")
}

/// An account as JSON, a value a line: the moves, and what the sessions make of each.
///
/// # Errors
///
/// AllocError where memory was refused.
pub(crate) fn account_json<A: Allocator + Copy>(
    alloc: A,
    account: &[u8],
) -> Result<Vec<u8, A>, AllocError>
    ensures { IfOk result (λ v. v.items ≡ account_json account.now) }
{
    let mut out = no_rows(alloc);
    let mut move_line: &[u8] = b"";
    let mut rest = account;
    while !rest.is_empty() {
        let (line, after) = first_line(rest);
        if is_indented(line) {
            out = put_made_row(out, move_line, line)?;
        } else {
            out = put_move_row(out, line)?;
            move_line = line;
        }
        rest = after;
    }
    Ok(out.lines)
}

/// A text as JSON: a value for each of its lines.
///
/// # Errors
///
/// AllocError where memory was refused.
pub(crate) fn text_json<A: Allocator + Copy>(
    alloc: A,
    text: &[u8],
) -> Result<Vec<u8, A>, AllocError>
    ensures { IfOk result (λ v. v.items ≡ text_json text.now) }
{
    let mut out = no_rows(alloc);
    let mut number = 0;
    let mut rest = text;
    while !rest.is_empty() {
        let (line, after) = first_line(rest);
        number += 1;
        out = put_line_row(out, number, line)?;
        rest = after;
    }
    Ok(out.lines)
}
