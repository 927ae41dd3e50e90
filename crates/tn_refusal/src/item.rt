// What stands at a place of a text.
ghost use Rattle.std.specs.Prelude.{◌≡◌, ◌++◌, OnOk};
ghost use Rattle.def_wording.specs.ShownTexts.{shown_text};
ghost use Rattle.def_wording.specs.SyntaxTexts.{thing_words, byte_text, no_end_text, quoted_text};
ghost use Rattle.def_wording.specs.SyntaxTexts.{thing_text};
ghost use Rattle.tn_refusal.specs.TextViews.{thing_seen};

use crate::bytes::{begins_with_digit, byte_at, first_bytes, last_digits_len, rest_at};
use crate::put::{put_number, put_shown};
use std::alloc::{AllocError, Allocator};
use tn_text::{TextFault, digits_len, name_len, quoted_len, tokens};

/// What it is.
#[derive(Clone, Copy, PartialEq, Eq)]
pub enum Thing {
    End,
    Variable,
    Reserved,
    Atom,
    Number,
    Quoted,
    Unquoted,
    Characters,
    Unclosed,
    Float,
    Stop,
    Dot,
    Pid,
    Binary,
    Angle,
    Map,
    Hash,
    Literal,
    Bar,
    Open,
    Close,
    Comma,
    Location,
    Byte,
}

/// What it is, and its bytes, as far as they are shown.
#[derive(Clone, Copy)]
pub struct TextItem<'a> {
    pub thing: Thing,
    pub bytes: &'a [u8],
}

/// A thing of so many bytes at the front.
fn of_len(thing: Thing, rest: &[u8], len: usize) -> TextItem<'_> {
    TextItem {
        thing,
        bytes: first_bytes(rest, len),
    }
}

/// A full stop, a float, or a dot that is neither.
fn dot_at(text: &[u8], at: usize) -> TextItem<'_> {
    let rest = rest_at(text, at);
    let before = last_digits_len(first_bytes(text, at));
    let after = digits_len(rest_at(rest, 1));
    if before > 0 && after > 0 {
        let from = rest_at(text, at.saturating_sub(before));
        let len = before.saturating_add(after).saturating_add(1);
        return of_len(Thing::Float, from, len);
    }
    match byte_at(rest, 1) {
        None | Some(b' ' | b'\t' | b'\n' | b'\r' | b'%') => of_len(Thing::Stop, rest, 0),
        Some(_) => of_len(Thing::Dot, rest, 0),
    }
}

/// Whether the byte is no character of a text.
fn is_strange(b: u8) -> bool {
    b > 126 || (b < 32 && b != b'\n' && b != b'\r')
}

/// The first byte of what begins with a quote that is no character; nothing where its line ends before, or the quote is
/// closed.
fn strange_byte(rest: &[u8], quote: u8) -> &[u8] {
    let mut escaped = true;
    for (i, b) in rest.iter().enumerate() {
        if is_strange(*b) {
            return first_bytes(rest_at(rest, i), 1);
        }
        if *b == b'\n' || (*b == quote && !escaped) {
            return b"";
        }
        escaped = *b == b'\\' && !escaped;
    }
    b""
}

/// What begins with a quote: closed, or not.
fn quoted_at(rest: &[u8], quote: u8, closed: Thing, open: Thing) -> TextItem<'_> {
    match quoted_len(rest_at(rest, 1), quote) {
        Some(len) => of_len(closed, rest, len.saturating_add(1)),
        None => TextItem {
            thing: open,
            bytes: strange_byte(rest, quote),
        },
    }
}

/// A binary, what begins as a pid, or another `<`.
fn angle_at(rest: &[u8]) -> TextItem<'_> {
    match byte_at(rest, 1) {
        Some(b'<') => of_len(Thing::Binary, rest, 0),
        Some(b'0') => of_len(Thing::Pid, rest, pid_len(rest)),
        _ => of_len(Thing::Angle, rest, 1),
    }
}

/// How many bytes there are up to the `>` that closes, and with it.
fn pid_len(rest: &[u8]) -> usize {
    for (i, b) in rest.iter().enumerate() {
        if *b == b'>' {
            return i + 1;
        }
        if *b != b'<' && *b != b'.' && !b.is_ascii_digit() {
            return i;
        }
    }
    rest.len()
}

/// A number, or a sign without one.
fn sign_at(rest: &[u8]) -> TextItem<'_> {
    let after = rest_at(rest, 1);
    if begins_with_digit(after) {
        of_len(Thing::Number, rest, digits_len(after).saturating_add(1))
    } else {
        of_len(Thing::Location, rest, 1)
    }
}

/// What begins with a letter, a digit or another character.
fn other_at(rest: &[u8], first: u8) -> TextItem<'_> {
    match first {
        b'A'..=b'Z' | b'_' => of_len(Thing::Variable, rest, name_len(rest)),
        b'a'..=b'z' => of_len(Thing::Atom, rest, name_len(rest)),
        b'0'..=b'9' => of_len(Thing::Number, rest, digits_len(rest)),
        b'-' => sign_at(rest),
        b'$' => of_len(Thing::Literal, rest, 2),
        b'|' => of_len(Thing::Bar, rest, 1),
        b'#' => {
            if byte_at(rest, 1) == Some(b'{') {
                of_len(Thing::Map, rest, 0)
            } else {
                of_len(Thing::Hash, rest, 1)
            }
        }
        33..=126 => of_len(Thing::Location, rest, 1),
        _ => of_len(Thing::Byte, rest, 1),
    }
}

/// What stands at an offset, words not told apart.
fn thing_at(text: &[u8], at: usize) -> TextItem<'_> {
    let rest = rest_at(text, at);
    match byte_at(rest, 0) {
        None => of_len(Thing::End, rest, 0),
        Some(b'{' | b'[') => of_len(Thing::Open, rest, 1),
        Some(b'}' | b']') => of_len(Thing::Close, rest, 1),
        Some(b',') => of_len(Thing::Comma, rest, 1),
        Some(b'.') => dot_at(text, at),
        Some(b'\'') => quoted_at(rest, b'\'', Thing::Quoted, Thing::Unquoted),
        Some(b'"') => quoted_at(rest, b'"', Thing::Characters, Thing::Unclosed),
        Some(b'<') => angle_at(rest),
        Some(b) => other_at(rest, b),
    }
}

/// Whether the word forms no token: it is reserved.
fn is_reserved<A: Allocator>(alloc: A, word: &[u8]) -> Result<bool, AllocError> {
    match tokens(alloc, word) {
        Err(TextFault::OutOfMemory) => Err(AllocError),
        Err(_) => Ok(true),
        Ok(_) => Ok(false),
    }
}

/// What stands at an offset of the text, or at its end.
pub fn found_at<A: Allocator>(
    alloc: A,
    text: &[u8],
    at: usize,
) -> Result<TextItem<'_>, AllocError> {
    let found = thing_at(text, at);
    if found.thing == Thing::Atom && is_reserved(alloc, found.bytes)? {
        return Ok(TextItem {
            thing: Thing::Reserved,
            bytes: found.bytes,
        });
    }
    Ok(found)
}

/// The words for what it is, before its bytes.
fn words_for(thing: Thing) -> &'static [u8]
    ensures { result.now ≡ thing_words (thing_seen thing) }
{
    match thing {
        Thing::End => b"the end of the text",
        Thing::Variable => b"the variable ",
        Thing::Reserved => b"the reserved word ",
        Thing::Atom => b"the atom ",
        Thing::Quoted => b"the atom ",
        Thing::Number => b"the number ",
        Thing::Characters => b"the string ",
        Thing::Float => b"the float ",
        Thing::Stop => b"the full stop",
        Thing::Dot => b"a dot",
        Thing::Pid => b"the pid ",
        Thing::Binary => b"a binary",
        Thing::Map => b"a map",
        Thing::Literal => b"the character ",
        _ => b"",
    }
}

/// Appends a byte by its number, where there is one; after an `Err` a part of the text may be there.
fn put_byte<A: Allocator>(bytes: &[u8], out: &mut Vec<u8, A>) -> Result<(), AllocError>
    ensures { OnOk result (out.new.items ≡ out.old.items ++ byte_text bytes.now) }
{
    match bytes.first() {
        Some(b) => put_number(b"the byte ", *b as usize, out),
        None => Ok(()),
    }
}

/// Appends why there is no end of what is in quotes; after an `Err` a part of the text may be there.
fn put_no_end<A: Allocator>(bytes: &[u8], out: &mut Vec<u8, A>) -> Result<(), AllocError>
    ensures { OnOk result (out.new.items ≡ out.old.items ++ no_end_text bytes.now) }
{
    match bytes.first() {
        Some(b) => put_number(b"with the byte ", *b as usize, out),
        None => out.extend_from_slice(b"that is not closed"),
    }
}

/// Appends words, and why there is no end of what is in quotes; after an `Err` a part of the text may be there.
fn put_unclosed<A: Allocator>(
    words: &[u8],
    bytes: &[u8],
    out: &mut Vec<u8, A>,
) -> Result<(), AllocError>
    ensures { OnOk result (out.new.items ≡ out.old.items ++ words.now ++ no_end_text bytes.now) }
{
    out.extend_from_slice(words)?;
    put_no_end(bytes, out)
}

/// Appends a mark in quotes; after an `Err` a part of the text may be there.
fn put_quoted<A: Allocator>(bytes: &[u8], out: &mut Vec<u8, A>) -> Result<(), AllocError>
    ensures { OnOk result (out.new.items ≡ out.old.items ++ quoted_text bytes.now) }
{
    out.extend_from_slice(b"'")?;
    put_shown(bytes, out)?;
    out.extend_from_slice(b"'")
}

/// Appends what it is, and its bytes; after an `Err` a part of the text may be there.
fn put_worded<A: Allocator>(
    thing: Thing,
    bytes: &[u8],
    out: &mut Vec<u8, A>,
) -> Result<(), AllocError>
    ensures { OnOk result (out.new.items ≡ out.old.items ++ thing_words (thing_seen thing) ++ shown_text bytes.now) }
{
    out.extend_from_slice(words_for(thing))?;
    put_shown(bytes, out)
}

/// Appends what it is: a byte by its number, and marks in quotes; after an `Err` a part of the text may be there.
pub fn put_thing<A: Allocator>(
    thing: Thing,
    bytes: &[u8],
    out: &mut Vec<u8, A>,
) -> Result<(), AllocError>
    ensures { OnOk result (out.new.items ≡ out.old.items ++ thing_text (thing_seen thing) bytes.now) }
{
    match thing {
        Thing::Byte => put_byte(bytes, out),
        Thing::Unquoted => put_unclosed(b"a quoted atom ", bytes, out),
        Thing::Unclosed => put_unclosed(b"a string ", bytes, out),
        Thing::Open => put_quoted(bytes, out),
        Thing::Close => put_quoted(bytes, out),
        Thing::Comma => put_quoted(bytes, out),
        Thing::Bar => put_quoted(bytes, out),
        Thing::Hash => put_quoted(bytes, out),
        Thing::Angle => put_quoted(bytes, out),
        Thing::Location => put_quoted(bytes, out),
        thing => put_worded(thing, bytes, out),
    }
}
