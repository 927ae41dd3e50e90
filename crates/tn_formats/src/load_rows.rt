// The summary of an output as JSON.
ghost use Rattle.std.specs.Prelude.{◌≡◌, ◌++◌, IfOk, length};
ghost use Rattle.def_formats.specs.Lines.{text_lines};
ghost use Rattle.def_formats.specs.Sections.{section_lines, section_of};
ghost use Rattle.def_formats.specs.Summaries.{kinds_of_signals, kinds_of_calls, kinds_of_processes, kinds_of_links};
ghost use Rattle.def_formats.specs.Summaries.{journal_picks};
ghost use Rattle.def_formats.specs.JsonRows.{json_line, json_lines};
ghost use Rattle.def_formats.specs.LoadRows.{kind_row, total_row, greatest_row, commands_row, moves_row};
ghost use Rattle.def_formats.specs.LoadRows.{rows_of_kind, rows_of_kinds, greatest_rows, session_load_rows};
ghost use Rattle.def_formats.specs.LoadRows.{section_loads, summary_json};
ghost use Rattle.tn_formats.specs.Tokens.{AddsTokens, load_tokens};
ghost use Rattle.tn_formats.specs.Values.{load_seen, line_seen};

use crate::atom::{Section, section_of};
use crate::lines::first_line;
use crate::load::{Load, load_of};
use crate::longest::{NumberedLine, longest};
use crate::picks::journal_length;
use crate::rows::{JsonText, Names, begin_row, end_row, no_rows, put_names};
use crate::section::{is_section_head, line_count};
use crate::values::{put_number_member, put_text_member};
use json::Writer;
use std::alloc::{AllocError, Allocator};

/// Writes the members of a load.
fn put_load<A: Allocator>(writer: &mut Writer<A>, load: Load) -> Result<(), AllocError>
    ensures { AddsTokens result writer.old writer.new (load_tokens (load_seen load)) }
{
    put_number_member(writer, "messages", load.messages)?;
    put_number_member(writer, "bytes", load.bytes)
}

/// Appends the row of the messages of a kind.
fn put_kind_row<A: Allocator>(
    out: JsonText<A>,
    names: Names<'_>,
    kind: &[u8],
    load: Load,
) -> Result<JsonText<A>, AllocError>
    ensures { IfOk result (λ v. v.lines.items ≡ out.lines.items
        ++ json_line (kind_row names.entry.name.now names.entry.tracer.now kind.now (load_seen load))) }
{
    let JsonText { lines, row } = out;
    let mut writer = begin_row(row)?;
    put_names(&mut writer, names)?;
    put_text_member(&mut writer, "kind", kind)?;
    put_load(&mut writer, load)?;
    end_row(lines, writer)
}

/// Appends the row of all messages of a session.
fn put_total_row<A: Allocator>(
    out: JsonText<A>,
    names: Names<'_>,
    load: Load,
) -> Result<JsonText<A>, AllocError>
    ensures { IfOk result (λ v. v.lines.items ≡ out.lines.items
        ++ json_line (total_row names.entry.name.now names.entry.tracer.now (load_seen load))) }
{
    let JsonText { lines, row } = out;
    let mut writer = begin_row(row)?;
    put_names(&mut writer, names)?;
    put_load(&mut writer, load)?;
    end_row(lines, writer)
}

/// Appends the row of the greatest message.
fn put_greatest_row<A: Allocator>(
    out: JsonText<A>,
    names: Names<'_>,
    greatest: NumberedLine<'_>,
) -> Result<JsonText<A>, AllocError>
    ensures { IfOk result (λ v. v.lines.items ≡ out.lines.items
        ++ json_line (greatest_row names.entry.name.now names.entry.tracer.now (line_seen greatest.entry))) }
{
    let NumberedLine { number, line } = greatest;
    let JsonText { lines, row } = out;
    let mut writer = begin_row(row)?;
    put_names(&mut writer, names)?;
    put_number_member(&mut writer, "greatest", number)?;
    put_number_member(&mut writer, "bytes", line.len())?;
    put_text_member(&mut writer, "text", line)?;
    end_row(lines, writer)
}

/// Appends the row of the number of commands.
fn put_commands_row<A: Allocator>(out: JsonText<A>, count: usize) -> Result<JsonText<A>, AllocError>
    ensures { IfOk result (λ v. v.lines.items ≡ out.lines.items ++ json_line (commands_row count)) }
{
    let JsonText { lines, row } = out;
    let mut writer = begin_row(row)?;
    put_number_member(&mut writer, "commands", count)?;
    end_row(lines, writer)
}

/// Appends the row of the number of moves.
fn put_moves_row<A: Allocator>(out: JsonText<A>, count: usize) -> Result<JsonText<A>, AllocError>
    ensures { IfOk result (λ v. v.lines.items ≡ out.lines.items ++ json_line (moves_row count)) }
{
    let JsonText { lines, row } = out;
    let mut writer = begin_row(row)?;
    put_number_member(&mut writer, "moves", count)?;
    end_row(lines, writer)
}

/// Appends the row of the messages of a kind, where the section has one.
fn put_kind<A: Allocator>(
    out: JsonText<A>,
    names: Names<'_>,
    text: &[u8],
    kind: &[u8],
) -> Result<JsonText<A>, AllocError>
    ensures { IfOk result (λ v. v.lines.items ≡ out.lines.items ++ json_lines
        (rows_of_kind names.entry.name.now names.entry.tracer.now (section_lines text.now) kind.now)) }
{
    let load = load_of(text, Some(kind));
    if load.messages == 0 {
        return Ok(out);
    }
    put_kind_row(out, names, kind, load)
}

/// Appends the rows of messages that are sent and that arrive.
fn put_signals<A: Allocator>(
    out: JsonText<A>,
    names: Names<'_>,
    text: &[u8],
) -> Result<JsonText<A>, AllocError>
    ensures { IfOk result (λ v. v.lines.items ≡ out.lines.items ++ json_lines
        (rows_of_kinds names.entry.name.now names.entry.tracer.now kinds_of_signals (section_lines text.now))) }
{
    let out = put_kind(out, names, text, b"send")?;
    let out = put_kind(out, names, text, b"send_to_non_existing_process")?;
    put_kind(out, names, text, b"'receive'")
}

/// Appends the rows of calls.
fn put_calls<A: Allocator>(
    out: JsonText<A>,
    names: Names<'_>,
    text: &[u8],
) -> Result<JsonText<A>, AllocError>
    ensures { IfOk result (λ v. v.lines.items ≡ out.lines.items ++ json_lines
        (rows_of_kinds names.entry.name.now names.entry.tracer.now kinds_of_calls (section_lines text.now))) }
{
    let out = put_kind(out, names, text, b"call")?;
    let out = put_kind(out, names, text, b"return_from")?;
    put_kind(out, names, text, b"exception_from")
}

/// Appends the rows of processes.
fn put_processes<A: Allocator>(
    out: JsonText<A>,
    names: Names<'_>,
    text: &[u8],
) -> Result<JsonText<A>, AllocError>
    ensures { IfOk result (λ v. v.lines.items ≡ out.lines.items ++ json_lines
        (rows_of_kinds names.entry.name.now names.entry.tracer.now kinds_of_processes (section_lines text.now))) }
{
    let out = put_kind(out, names, text, b"spawn")?;
    let out = put_kind(out, names, text, b"spawned")?;
    put_kind(out, names, text, b"exit")
}

/// Appends the rows of links.
fn put_links<A: Allocator>(
    out: JsonText<A>,
    names: Names<'_>,
    text: &[u8],
) -> Result<JsonText<A>, AllocError>
    ensures { IfOk result (λ v. v.lines.items ≡ out.lines.items ++ json_lines
        (rows_of_kinds names.entry.name.now names.entry.tracer.now kinds_of_links (section_lines text.now))) }
{
    let out = put_kind(out, names, text, b"link")?;
    let out = put_kind(out, names, text, b"unlink")?;
    let out = put_kind(out, names, text, b"getting_linked")?;
    put_kind(out, names, text, b"getting_unlinked")
}

/// Appends the row of the greatest message, where there is one.
fn put_greatest<A: Allocator>(
    out: JsonText<A>,
    names: Names<'_>,
    greatest: NumberedLine<'_>,
) -> Result<JsonText<A>, AllocError>
    ensures { IfOk result (λ v. v.lines.items ≡ out.lines.items ++ json_lines
        (greatest_rows names.entry.name.now names.entry.tracer.now (line_seen greatest.entry))) }
{
    if greatest.number == 0 {
        return Ok(out);
    }
    put_greatest_row(out, names, greatest)
}

/// Appends the rows of a session's messages.
fn put_session<A: Allocator>(
    out: JsonText<A>,
    names: Names<'_>,
    text: &[u8],
) -> Result<JsonText<A>, AllocError>
    ensures { IfOk result (λ v. v.lines.items ≡ out.lines.items ++ json_lines
        (session_load_rows names.entry.name.now names.entry.tracer.now (section_lines text.now))) }
{
    let out = put_signals(out, names, text)?;
    let out = put_calls(out, names, text)?;
    let out = put_processes(out, names, text)?;
    let out = put_links(out, names, text)?;
    let out = put_total_row(out, names, load_of(text, None))?;
    put_greatest(out, names, longest(text))
}

/// Appends the rows of what a section comes to, of its first line and the text after it.
fn put_section<A: Allocator>(
    out: JsonText<A>,
    head: &[u8],
    text: &[u8],
) -> Result<JsonText<A>, AllocError>
    ensures { IfOk result (λ v. v.lines.items ≡ out.lines.items ++ section_loads head.now (section_lines text.now)) }
{
    match section_of(head) {
        Section::Session { name, tracer } => put_session(out, Names { name, tracer }, text),
        Section::Replies => put_commands_row(out, line_count(text)),
        Section::Journal => put_moves_row(out, journal_length(text)),
    }
}

/// The summary of an output as JSON, a value a line.
///
/// # Errors
///
/// AllocError where memory was refused.
pub(crate) fn summary_json<A: Allocator + Copy>(
    alloc: A,
    output: &[u8],
) -> Result<Vec<u8, A>, AllocError>
    ensures { IfOk result (λ v. v.items ≡ summary_json output.now) }
{
    let mut out = no_rows(alloc);
    let mut rest = output;
    while !rest.is_empty() {
        let (line, after) = first_line(rest);
        if is_section_head(line) {
            out = put_section(out, line, after)?;
        }
        rest = after;
    }
    Ok(out.lines)
}
