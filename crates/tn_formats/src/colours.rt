// An output in colours, for a terminal.
ghost use Rattle.std.specs.Prelude.{◌≡◌, ◌++◌, ◌∷◌, [], IfOk, OnOk};
ghost use Rattle.std.specs.Str.{bytes_eq};
ghost use Rattle.def_formats.specs.Colours.{coloured_line, coloured_text, is_kind_among, kind_style, line_style};
ghost use Rattle.def_formats.specs.Colours.{rendition, in_style};
ghost use Rattle.def_formats.specs.Summaries.{kinds_of_calls, kinds_of_links, kinds_of_processes, kinds_of_signals};
ghost use Rattle.tn_formats.specs.Values.{style_seen};

use crate::lines::first_line;
use crate::parts::message_parts;
use crate::section::is_section_head;
use std::alloc::{AllocError, Allocator};

/// How a line is shown.
#[derive(Clone, Copy)]
pub(crate) enum Style {
    AsItIs,
    Bold,
    Green,
    Yellow,
    Magenta,
    Cyan,
}

/// Whether a kind is the one of this name.
fn is_kind(kind: &[u8], name: &[u8]) -> bool
    ensures { result ≡ bytes_eq kind.now name.now }
{
    kind == name
}

/// Whether the kind is of messages that are sent or arrive.
fn is_signal(kind: &[u8]) -> bool
    ensures { result ≡ is_kind_among kinds_of_signals kind.now }
{
    is_kind(kind, b"send")
        || is_kind(kind, b"send_to_non_existing_process")
        || is_kind(kind, b"'receive'")
}

/// Whether the kind is of calls.
fn is_call(kind: &[u8]) -> bool
    ensures { result ≡ is_kind_among kinds_of_calls kind.now }
{
    is_kind(kind, b"call") || is_kind(kind, b"return_from") || is_kind(kind, b"exception_from")
}

/// Whether the kind is of processes.
fn is_of_process(kind: &[u8]) -> bool
    ensures { result ≡ is_kind_among kinds_of_processes kind.now }
{
    is_kind(kind, b"spawn") || is_kind(kind, b"spawned") || is_kind(kind, b"exit")
}

/// Whether the kind is of links.
fn is_of_link(kind: &[u8]) -> bool
    ensures { result ≡ is_kind_among kinds_of_links kind.now }
{
    is_kind(kind, b"link")
        || is_kind(kind, b"unlink")
        || is_kind(kind, b"getting_linked")
        || is_kind(kind, b"getting_unlinked")
}

/// How a trace message of a kind is shown.
fn kind_style(kind: &[u8]) -> Style
    ensures { style_seen result ≡ kind_style kind.now }
{
    if is_signal(kind) {
        Style::Cyan
    } else if is_call(kind) {
        Style::Green
    } else if is_of_process(kind) {
        Style::Yellow
    } else if is_of_link(kind) {
        Style::Magenta
    } else {
        Style::AsItIs
    }
}

/// How a line of an output is shown.
fn line_style(line: &[u8]) -> Style
    ensures { style_seen result ≡ line_style line.now }
{
    if is_section_head(line) {
        Style::Bold
    } else if line.starts_with(b"{trace,") {
        kind_style(message_parts(line).1)
    } else {
        Style::AsItIs
    }
}

/// Appends a text after the sequence of a style, and then the sequence of none.
fn put_in_sequences<A: Allocator>(
    out: &mut Vec<u8, A>,
    parameter: &[u8],
    text: &[u8],
) -> Result<(), AllocError>
    ensures { OnOk result (out.new.items ≡
        out.old.items ++ (rendition parameter.now ++ text.now ++ rendition (48 ∷ []))) }
{
    out.extend_from_slice(b"\x1b[")?;
    out.extend_from_slice(parameter)?;
    out.push(b'm')?;
    out.extend_from_slice(text)?;
    out.extend_from_slice(b"\x1b[0m")
}

/// Appends a text in a style.
fn put_in_style<A: Allocator>(
    out: &mut Vec<u8, A>,
    style: Style,
    text: &[u8],
) -> Result<(), AllocError>
    ensures { OnOk result (out.new.items ≡ out.old.items ++ in_style (style_seen style) text.now) }
{
    match style {
        Style::AsItIs => out.extend_from_slice(text),
        Style::Bold => put_in_sequences(out, b"1", text),
        Style::Green => put_in_sequences(out, b"32", text),
        Style::Yellow => put_in_sequences(out, b"33", text),
        Style::Magenta => put_in_sequences(out, b"35", text),
        Style::Cyan => put_in_sequences(out, b"36", text),
    }
}

/// Appends a line of an output in its style, with its line feed.
fn put_line<A: Allocator>(out: &mut Vec<u8, A>, line: &[u8]) -> Result<(), AllocError>
    ensures { OnOk result (out.new.items ≡ out.old.items ++ coloured_line line.now) }
{
    put_in_style(out, line_style(line), line)?;
    out.push(b'\n')?;
    Ok(())
}

/// An output in colours: the first line of each section is bold, and a trace message has the colour of its kind.
///
/// # Errors
///
/// AllocError where memory was refused.
pub(crate) fn coloured_text<A: Allocator>(alloc: A, output: &[u8]) -> Result<Vec<u8, A>, AllocError>
    ensures { IfOk result (λ v. v.items ≡ coloured_text output.now) }
{
    let mut out = Vec::new(alloc);
    let mut rest = output;
    while !rest.is_empty() {
        let (line, after) = first_line(rest);
        put_line(&mut out, line)?;
        rest = after;
    }
    Ok(out)
}
