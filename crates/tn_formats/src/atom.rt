// The text of an atom at the front of a text, and the first line of a section.
ghost use Rattle.std.specs.Prelude.{◌≡◌, ◌≤◌, ◌+◌, ◌==◌, ◌&&◌, not, false, length, take, drop};
ghost use Rattle.std.specs.List.{prefix_len};
ghost use Rattle.def_term.specs.Text.{is_name_byte};
ghost use Rattle.def_formats.specs.Lines.{atom_length, quoted_length, value_length};
ghost use Rattle.def_formats.specs.Sections.{section_of};
ghost use Rattle.tn_formats.specs.Values.{section_seen};

use crate::parts::without_front;

/// Whether a byte is this one, with no backslash before it.
fn is_unescaped(escapes: bool, byte: u8, wanted: u8) -> bool
    ensures { result ≡ (not escapes && (byte == wanted)) }
{
    !escapes && byte == wanted
}

/// The length of what ends with the first quote that has no backslash before it.
fn quoted_length(text: &[u8]) -> usize
    ensures value { result ≡ quoted_length false text.now }
    ensures within { result ≤ length text.now }
{
    let mut escapes = false;
    for (i, byte) in text.iter().enumerate() {
        if is_unescaped(escapes, *byte, b'\'') {
            return i + 1;
        }
        escapes = is_unescaped(escapes, *byte, b'\\');
    }
    text.len()
}

/// The length of what is before the first colon outside of quotes.
pub(crate) fn value_length(text: &[u8]) -> usize
    ensures value { result ≡ value_length false false text.now }
    ensures within { result ≤ length text.now }
{
    let mut is_quoted = false;
    let mut escapes = false;
    for (i, byte) in text.iter().enumerate() {
        if !is_quoted && *byte == b':' {
            return i;
        }
        let is_quote = is_unescaped(escapes, *byte, b'\'');
        escapes = is_quoted && is_unescaped(escapes, *byte, b'\\');
        is_quoted = if is_quote { !is_quoted } else { is_quoted };
    }
    text.len()
}

/// Whether a bare atom may go on with the byte.
fn is_name_byte(byte: u8) -> bool
    ensures { result ≡ is_name_byte byte }
{
    matches!(byte, b'a'..=b'z' | b'A'..=b'Z' | b'0'..=b'9' | b'_' | b'@')
}

/// How many of the first bytes may be those of a bare atom.
fn name_length(text: &[u8]) -> usize
    ensures value { result ≡ prefix_len is_name_byte text.now }
    ensures within { result ≤ length text.now }
{
    for (i, byte) in text.iter().enumerate() {
        if !is_name_byte(*byte) {
            return i;
        }
    }
    text.len()
}

/// The length of the atom's text at the front of a text.
fn atom_length(text: &[u8]) -> usize
    ensures value { result ≡ atom_length text.now }
    ensures within { result ≤ length text.now }
{
    if !text.is_empty() && text[0] == b'\'' {
        1 + quoted_length(&text[1..])
    } else {
        name_length(text)
    }
}

/// The text of the atom at the front of a text, and what is after it and so many more bytes.
pub(crate) fn cut_atom(text: &[u8], more: u8) -> (&[u8], &[u8])
    ensures atom { result.0.now ≡ take (atom_length text.now) text.now }
    ensures after { result.1.now ≡ drop (atom_length text.now + more) text.now }
{
    let length = atom_length(text);
    let rest = &text[length..];
    (&text[..length], without_front(rest, more as usize))
}

/// What a section is of.
#[derive(Clone, Copy)]
pub(crate) enum Section<'a> {
    /// A session, with the texts of its name and of its tracer.
    Session { name: &'a [u8], tracer: &'a [u8] },
    /// The replies.
    Replies,
    /// The journal.
    Journal,
}

/// What the section with this first line is of.
pub(crate) fn section_of(head: &[u8]) -> Section<'_>
    ensures { section_seen result ≡ section_of head.now }
{
    if head == b"== replies".as_slice() {
        return Section::Replies;
    }
    if head == b"== journal".as_slice() {
        return Section::Journal;
    }
    let (name, tracer) = cut_atom(without_front(head, 11), 8);
    Section::Session { name, tracer }
}
