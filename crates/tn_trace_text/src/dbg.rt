// The text of the message that a line of `dbg` stands for.
ghost use Rattle.std.specs.Prelude.{◌≡◌, ◌≤◌, length, take, drop, slice_index, None, false, IfOk};
ghost use Rattle.std.specs.Option.{option_map};
ghost use Rattle.def_trace_text.specs.DbgFormats.{is_quote, quote_after, escapes_next, opens_term, closes_term};
ghost use Rattle.def_trace_text.specs.DbgFormats.{part_length, begins_with_byte, span_length, has_format};
ghost use Rattle.def_trace_text.specs.DbgFormats.{part_of_line, with_parts, dbg_formats, first_format};
ghost use Rattle.def_trace_text.specs.DbgLines.{is_dbg_line, dbg_text};
ghost use Rattle.tn_trace_text.specs.DbgFormats.{dbg_format_seen};

use crate::line::without_blanks;
use std::alloc::{AllocError, Allocator};

/// Whether a byte is the quote of an atom, or of a string.
fn is_quote(b: u8) -> bool
    ensures { result ≡ is_quote b }
{
    b == b'\'' || b == b'"'
}

/// The quote whose end is to come after this byte.
pub(crate) fn quote_after(quote: Option<u8>, escaped: bool, b: u8) -> Option<u8>
    ensures { result ≡ quote_after quote escaped b }
{
    match quote {
        None => { if is_quote(b) { Some(b) } else { None } }
        Some(q) => { if !escaped && b == q { None } else { Some(q) } }
    }
}

/// Whether a byte is a backslash between quotes that is not after another.
pub(crate) fn escapes_next(quote: Option<u8>, escaped: bool, b: u8) -> bool
    ensures { result ≡ escapes_next quote escaped b }
{
    quote.is_some() && !escaped && b == b'\\'
}

/// Whether a tuple or a list begins with a byte, which is not between quotes.
fn opens_term(quote: Option<u8>, b: u8) -> bool
    ensures { result ≡ opens_term quote b }
{
    quote.is_none() && (b == b'{' || b == b'[')
}

/// Whether a tuple or a list ends with a byte.
fn closes_term(quote: Option<u8>, b: u8) -> bool
    ensures { result ≡ closes_term quote b }
{
    quote.is_none() && (b == b'}' || b == b']')
}

/// How many bytes come before the first one of this kind that is neither between quotes nor in a tuple or list.
pub(crate) fn part_length(end: u8, line: &[u8]) -> usize
    ensures value { result ≡ part_length end None false 0 line.now }
    ensures fits { result ≤ length line.now }
{
    let mut quote = None;
    let mut escaped = false;
    let mut depth: usize = 0;
    for (i, b) in line.iter().enumerate() {
        if quote.is_none() && depth == 0 && *b == end {
            return i;
        }
        if opens_term(quote, *b) {
            depth += 1;
        } else if closes_term(quote, *b) && depth > 0 {
            depth -= 1;
        }
        let open = quote_after(quote, escaped, *b);
        escaped = escapes_next(quote, escaped, *b);
        quote = open;
    }
    line.len()
}

/// The first byte, or 0 where there is none.
fn first_byte(bytes: &[u8]) -> u8
    ensures { result ≡ slice_index bytes.now 0 }
{
    if bytes.is_empty() { 0 } else { bytes[0] }
}

/// Whether the first byte is this one.
pub(crate) fn begins_with(c: u8, line: &[u8]) -> bool
    ensures { result ≡ begins_with_byte c line.now }
{
    !line.is_empty() && line[0] == c
}

/// The first bytes of a line, so many at most.
fn front(n: usize, line: &[u8]) -> &[u8]
    ensures { result.now ≡ take n line.now }
{
    if n < line.len() { &line[..n] } else { line }
}

/// The bytes after so many.
pub(crate) fn bytes_after(n: usize, line: &[u8]) -> &[u8]
    ensures { result.now ≡ drop n line.now }
{
    if n < line.len() { &line[n..] } else { b"" }
}

/// How many bytes of the line a byte of a format stands for, before the others of the format.
fn span_length(c: u8, others: &[u8], line: &[u8]) -> usize
    ensures { result ≡ span_length c others.now line.now }
{
    if c.is_ascii_digit() {
        part_length(first_byte(others), line)
    } else {
        1
    }
}

/// Whether a line has this format.
fn has_format(format: &[u8], line: &[u8]) -> bool
    ensures { result ≡ has_format format.now line.now }
{
    let mut others = format;
    let mut rest = line;
    while !others.is_empty() {
        let c = others[0];
        others = &others[1..];
        if !c.is_ascii_digit() && !begins_with(c, rest) {
            return false;
        }
        rest = bytes_after(span_length(c, others, rest), rest);
    }
    rest.is_empty()
}

/// The part of a line in the place of this digit of its format.
fn part_of_line<'a>(digit: u8, format: &[u8], line: &'a [u8]) -> &'a [u8]
    ensures { result.now ≡ part_of_line digit format.now line.now }
{
    let mut others = format;
    let mut rest = line;
    while !others.is_empty() {
        let c = others[0];
        others = &others[1..];
        let n = span_length(c, others, rest);
        if c == digit {
            return front(n, rest);
        }
        rest = bytes_after(n, rest);
    }
    b""
}

/// What `dbg` prints, and the text of the message; a digit is the same part in both.
#[derive(Clone, Copy)]
struct DbgFormat {
    printed: &'static [u8],
    message: &'static [u8],
}

/// The formats of `dbg`.
const FORMATS: &[DbgFormat] = &[
    DbgFormat {
        printed: b"(1) << 2",
        message: b"{trace,1,'receive',2}",
    },
    DbgFormat {
        printed: b"(1) call 2:3/4 (5)",
        message: b"{trace,1,call,{2,3,4},5}",
    },
    DbgFormat {
        printed: b"(1) call 2:3/4",
        message: b"{trace,1,call,{2,3,4}}",
    },
    DbgFormat {
        printed: b"(1) call 2:3(4) (5)",
        message: b"{trace,1,call,{2,3,[4]},5}",
    },
    DbgFormat {
        printed: b"(1) call 2:3(4)",
        message: b"{trace,1,call,{2,3,[4]}}",
    },
    DbgFormat {
        printed: b"(1) returned from 2:3/4 -> 5",
        message: b"{trace,1,return_from,{2,3,4},5}",
    },
    DbgFormat {
        printed: b"(1) returning to 2:3/4",
        message: b"{trace,1,return_to,{2,3,4}}",
    },
    DbgFormat {
        printed: b"(1) spawn 2 as 3:4(5)",
        message: b"{trace,1,spawn,2,{3,4,[5]}}",
    },
    DbgFormat {
        printed: b"(1) 2 ! 3",
        message: b"{trace,1,send,3,2}",
    },
    DbgFormat {
        printed: b"(1) 2 3 4",
        message: b"{trace,1,2,3,4}",
    },
    DbgFormat {
        printed: b"(1) 2 3",
        message: b"{trace,1,2,3}",
    },
];

/// The first format of `dbg` that a line has.
fn format_of(line: &[u8]) -> Option<DbgFormat>
    ensures { option_map dbg_format_seen result ≡ first_format dbg_formats line.now }
{
    for format in FORMATS {
        if has_format(format.printed, line) {
            return Some(*format);
        }
    }
    None
}

/// The text of the message of a line of this format.
fn with_parts<A: Allocator>(
    alloc: A,
    format: DbgFormat,
    line: &[u8],
) -> Result<Vec<u8, A>, AllocError>
    ensures { IfOk result (λ v. v.items ≡ with_parts format.message.now format.printed.now line.now) }
{
    let mut text = Vec::new(alloc);
    for b in format.message {
        if b.is_ascii_digit() {
            text.extend_from_slice(part_of_line(*b, format.printed, line))?;
        } else {
            text.push(*b)?;
        }
    }
    Ok(text)
}

/// A copy of a text.
fn text_copy<A: Allocator>(alloc: A, text: &[u8]) -> Result<Vec<u8, A>, AllocError>
    ensures { IfOk result (λ v. v.items ≡ text.now) }
{
    let mut copy = Vec::new(alloc);
    copy.extend_from_slice(text)?;
    Ok(copy)
}

/// Whether a line is one of `dbg`.
pub(crate) fn is_dbg_line(line: &[u8]) -> bool
    ensures { result ≡ is_dbg_line line.now }
{
    begins_with(b'(', line)
}

/// The text of the message that a line of `dbg` stands for.
pub(crate) fn dbg_text<A: Allocator>(alloc: A, line: &[u8]) -> Result<Vec<u8, A>, AllocError>
    ensures { IfOk result (λ v. v.items ≡ dbg_text line.now) }
{
    let content = without_blanks(line);
    match format_of(content) {
        Some(format) => with_parts(alloc, format, content),
        None => text_copy(alloc, content),
    }
}
