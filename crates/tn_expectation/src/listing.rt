// The listing of one session in an output.
ghost use Rattle.std.specs.Prelude.{◌≡◌, ◌≤◌, ◌∷◌, [], length, IfOk};
ghost use Rattle.def_formats.specs.Lines.{text_lines};
ghost use Rattle.def_formats.specs.Sections.{before_section};
ghost use Rattle.tn_expectation.specs.Expectations.{are_same_lines, IsListingHead, lists_session};

use std::alloc::{AllocError, Global};
use tn_formats::first_line;
use tn_term::Atom;
use tn_text::write_atom;

/// The listing that an output must have of a session.
#[derive(Clone, Copy)]
pub struct SessionListing<'a> {
    /// The session's name.
    pub name: &'a str,
    /// What the first line of its listing begins with.
    pub head: &'a [u8],
    /// The lines of the listing, with the first.
    pub lines: &'a [u8],
}

/// What the first line of the listing of the session with this name begins with. Where no session can have the name, it
/// is what no line begins with.
pub fn listing_head(alloc: Global, name: &str) -> Result<Vec<u8>, AllocError>
    ensures { IfOk result (λ v. IsListingHead name.now v.items) }
{
    let mut head = Vec::new(alloc);
    let Some(atom) = Atom::new(alloc, name)? else {
        head.push(b'\n')?;
        return Ok(head);
    };
    head.extend_from_slice(b"== session ")?;
    write_atom(&atom, &mut head)?;
    head.extend_from_slice(b" tracer ")?;
    Ok(head)
}

/// Whether a section of an output ends where this text is left.
fn is_section_end(text: &[u8]) -> bool
    ensures { result ≡ are_same_lines (before_section (text_lines text.now)) [] }
{
    text.is_empty() || first_line(text).0.starts_with(b"== ")
}

/// Whether a text has no lines.
fn has_no_lines(text: &[u8]) -> bool
    ensures { result ≡ are_same_lines [] (text_lines text.now) }
{
    text.is_empty()
}

/// Whether the lines before the next section are these.
fn is_section(text: &[u8], lines: &[u8]) -> bool
    ensures { result ≡ are_same_lines (before_section (text_lines text.now)) (text_lines lines.now) }
{
    let mut rest = text;
    let mut expected = lines;
    while !rest.is_empty() {
        if expected.is_empty() {
            return is_section_end(rest);
        }
        let (line, after) = first_line(rest);
        let (wanted, left) = first_line(expected);
        if line.starts_with(b"== ") || line != wanted {
            return false;
        }
        rest = after;
        expected = left;
    }
    has_no_lines(expected)
}

/// Whether a first line and those after it up to the next section are these.
fn is_listing(line: &[u8], after: &[u8], lines: &[u8]) -> bool
    ensures { result ≡ are_same_lines (line.now ∷ before_section (text_lines after.now)) (text_lines lines.now) }
{
    if lines.is_empty() {
        return false;
    }
    let (wanted, left) = first_line(lines);
    line == wanted && is_section(after, left)
}

impl SessionListing<'_> {
    /// Whether an output has this listing.
    pub(crate) fn is_in(&self, output: &[u8]) -> bool
        ensures { result ≡ lists_session output.now self.now }
    {
        let mut rest = output;
        while !rest.is_empty() {
            let (line, after) = first_line(rest);
            if line.starts_with(self.head) {
                return is_listing(line, after, self.lines);
            }
            rest = after;
        }
        false
    }

    /// The listing of the session in an output, which begins with its first line; None where there is none.
    pub(crate) fn listing_in<'a>(&self, output: &'a [u8]) -> Option<&'a [u8]> {
        let mut rest = output;
        while !rest.is_empty() {
            let (line, after) = first_line(rest);
            if line.starts_with(self.head) {
                return Some(section_front(rest, after));
            }
            rest = after;
        }
        None
    }
}

/// The front of a text up to the next section after its first line, where this is what stands after that.
fn section_front<'a>(text: &'a [u8], after: &[u8]) -> &'a [u8]
    requires { length after.now ≤ length text.now }
{
    let mut rest = after;
    while !rest.is_empty() && !is_section_end(rest) {
        let (_, left) = first_line(rest);
        rest = left;
    }
    &text[..text.len() - rest.len()]
}
