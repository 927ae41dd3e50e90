// The picture of a run as JSON.
ghost use Rattle.std.specs.Prelude.{◌≡◌, ◌++◌, IfOk, codes, map};
ghost use Rattle.json.specs.Json.{array};
ghost use Rattle.json.specs.Tree.{json_tokens};
ghost use Rattle.def_formats.specs.JsonRows.{items_from, number_value};
ghost use Rattle.def_picture.specs.JsonPicture.{life_line, name_line, pid_value, picture_json, report_value, row_line};
ghost use Rattle.def_picture.specs.JsonPicture.{value_or_null};
ghost use Rattle.def_picture.specs.Templates.{each_numbered};
ghost use Rattle.tn_formats.specs.Tokens.{AddsTokens, json_member};
ghost use Rattle.tn_picture.specs.JsonTokens.{shape_tokens, span_tokens};
ghost use Rattle.tn_picture.specs.Views.{life_seen, picture_row_seen, picture_seen, report_seen, row_shape_seen};

use crate::life::Life;
use crate::picture::Picture;
use crate::row::{Report, Row};
use crate::shape::Shape;
use crate::templates::put_filled;
use json::Writer;
use std::alloc::{AllocError, Allocator};
use tn_formats::{JsonText, begin_row, end_row, no_rows, put_number_member, put_text_member};
use tn_term::Atom;
use tn_text::write_atom;

/// Writes a member that is a pid as it is printed.
fn put_pid_member<A: Allocator, B: Allocator>(
    alloc: B,
    writer: &mut Writer<A>,
    name: &str,
    pid: u32,
) -> Result<(), AllocError>
    ensures { AddsTokens result writer.old writer.new (json_member name.now (pid_value pid)) }
{
    let mut text = Vec::new(alloc);
    put_filled(b"<0.@.0>", &[pid as u128], &mut text)?;
    put_text_member(writer, name, &text)
}

/// Writes a member that is a pid as it is printed, or null where there is none.
fn put_pid_or_null<A: Allocator, B: Allocator>(
    alloc: B,
    writer: &mut Writer<A>,
    name: &str,
    pid: Option<u32>,
) -> Result<(), AllocError>
    ensures { AddsTokens result writer.old writer.new (json_member name.now (value_or_null pid_value pid)) }
{
    match pid {
        Some(pid) => put_pid_member(alloc, writer, name, pid),
        None => {
            writer.key(name)?;
            writer.null()
        }
    }
}

/// Writes a member that is a number, or null where there is none.
fn put_number_or_null<A: Allocator>(
    writer: &mut Writer<A>,
    name: &str,
    number: Option<usize>,
) -> Result<(), AllocError>
    ensures { AddsTokens result writer.old writer.new (json_member name.now (value_or_null number_value number)) }
{
    match number {
        Some(number) => put_number_member(writer, name, number),
        None => {
            writer.key(name)?;
            writer.null()
        }
    }
}

/// Writes the members that say what a row looks like.
fn put_shape<A: Allocator, B: Allocator + Copy>(
    alloc: B,
    writer: &mut Writer<A>,
    shape: Shape,
) -> Result<(), AllocError>
    ensures { AddsTokens result writer.old writer.new (shape_tokens (row_shape_seen shape)) }
{
    put_text_member(writer, "shape", shape.word())?;
    put_pid_or_null(alloc, writer, "pid", shape.process())?;
    put_pid_or_null(alloc, writer, "to", shape.target())?;
    put_number_or_null(writer, "depth", shape.depth())
}

/// Writes a message of a row.
fn put_report<A: Allocator, B: Allocator>(
    writer: &mut Writer<A>,
    report: &Report<B>,
) -> Result<(), AllocError>
    ensures { AddsTokens result writer.old writer.new (json_tokens (report_value (report_seen report.now))) }
{
    writer.begin_object()?;
    put_number_member(writer, "number", report.session as usize)?;
    put_text_member(writer, "text", &report.text)?;
    writer.end_object()
}

/// Writes the messages of a row as an array.
fn put_reports<A: Allocator, B: Allocator>(
    writer: &mut Writer<A>,
    reports: &[Report<B>],
) -> Result<(), AllocError>
    ensures { AddsTokens result writer.old writer.new
        (json_tokens (array (items_from (map report_value (map report_seen reports.now))))) }
{
    writer.begin_array()?;
    for report in reports {
        put_report(writer, report)?;
    }
    writer.end_array()
}

/// Appends a row.
fn put_row<A: Allocator + Copy>(
    alloc: A,
    out: JsonText<A>,
    number: usize,
    row: &Row<A>,
) -> Result<JsonText<A>, AllocError>
    ensures { IfOk result (λ v. v.lines.items ≡ out.lines.items ++ row_line number (picture_row_seen row.now)) }
{
    let JsonText { lines, row: room } = out;
    let mut writer = begin_row(room)?;
    put_number_member(&mut writer, "row", number)?;
    put_number_member(&mut writer, "move", row.move_number as usize)?;
    put_shape(alloc, &mut writer, row.shape)?;
    put_text_member(&mut writer, "text", &row.label)?;
    writer.key("reports")?;
    put_reports(&mut writer, &row.reports)?;
    end_row(lines, writer)
}

/// Appends the rows.
fn put_rows<A: Allocator + Copy>(
    alloc: A,
    out: JsonText<A>,
    rows: &[Row<A>],
) -> Result<JsonText<A>, AllocError>
    ensures { IfOk result (λ v. v.lines.items ≡
        out.lines.items ++ each_numbered row_line 0 (map picture_row_seen rows.now)) }
{
    let mut out = out;
    for number in 0..rows.len() {
        out = put_row(alloc, out, number, &rows[number])?;
    }
    Ok(out)
}

/// Writes the members that say which rows a life has.
fn put_span<A: Allocator>(writer: &mut Writer<A>, life: Life) -> Result<(), AllocError>
    ensures { AddsTokens result writer.old writer.new (span_tokens (life_seen life)) }
{
    put_number_member(writer, "first", life.first)?;
    put_number_member(writer, "last", life.last)
}

/// Appends the life of a process.
fn put_life<A: Allocator + Copy>(
    alloc: A,
    out: JsonText<A>,
    number: usize,
    life: Life,
) -> Result<JsonText<A>, AllocError>
    ensures { IfOk result (λ v. v.lines.items ≡ out.lines.items ++ life_line number (life_seen life)) }
{
    let JsonText { lines, row } = out;
    let mut writer = begin_row(row)?;
    put_pid_member(alloc, &mut writer, "pid", life.pid)?;
    put_span(&mut writer, life)?;
    put_number_member(&mut writer, "depth", life.depth)?;
    end_row(lines, writer)
}

/// Appends the lives.
fn put_lives<A: Allocator + Copy>(
    alloc: A,
    out: JsonText<A>,
    lives: &[Life],
) -> Result<JsonText<A>, AllocError>
    ensures { IfOk result (λ v. v.lines.items ≡
        out.lines.items ++ each_numbered life_line 0 (map life_seen lives.now)) }
{
    let mut out = out;
    for number in 0..lives.len() {
        out = put_life(alloc, out, number, lives[number])?;
    }
    Ok(out)
}

/// Appends the number and the name of a session.
fn put_name<A: Allocator + Copy>(
    alloc: A,
    out: JsonText<A>,
    number: usize,
    name: &Atom<A>,
) -> Result<JsonText<A>, AllocError>
    ensures { IfOk result (λ v. v.lines.items ≡ out.lines.items ++ name_line number name.now) }
{
    let mut text = Vec::new(alloc);
    write_atom(name, &mut text)?;
    let JsonText { lines, row } = out;
    let mut writer = begin_row(row)?;
    put_text_member(&mut writer, "session", &text)?;
    put_number_member(&mut writer, "number", number)?;
    end_row(lines, writer)
}

/// Appends the numbers and the names of the sessions.
fn put_names<A: Allocator + Copy>(
    alloc: A,
    out: JsonText<A>,
    sessions: &[Atom<A>],
) -> Result<JsonText<A>, AllocError>
    ensures { IfOk result (λ v. v.lines.items ≡ out.lines.items ++ each_numbered name_line 1 sessions.now) }
{
    let mut out = out;
    for place in 0..sessions.len() {
        out = put_name(alloc, out, place + 1, &sessions[place])?;
    }
    Ok(out)
}

/// The picture as JSON, a value a line: the sessions, the lives of the processes and the rows.
///
/// # Errors
///
/// AllocError where memory was refused.
pub fn picture_json<A: Allocator + Copy>(
    alloc: A,
    picture: &Picture<A>,
) -> Result<Vec<u8, A>, AllocError>
    ensures { IfOk result (λ v. v.items ≡ picture_json (picture_seen picture.now)) }
{
    let out = no_rows(alloc);
    let out = put_names(alloc, out, &picture.sessions)?;
    let out = put_lives(alloc, out, &picture.lives)?;
    let out = put_rows(alloc, out, &picture.rows)?;
    Ok(out.lines)
}
