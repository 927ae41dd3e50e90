// One line of a text of trace messages.
ghost use Rattle.std.specs.Prelude.{◌≡◌, ◌==◌, ◌∷◌, ◌<◌, length};
ghost use Rattle.std.specs.List.{position};
ghost use Rattle.def_trace_text.specs.Lines.{trace_text_lines, is_passed_over, without_blanks, without_end, term_text};

use tn_text::{gap_len, is_blank};

/// The bytes without this one at their end.
fn without_end(last: u8, text: &[u8]) -> &[u8]
    ensures { result.now ≡ without_end last text.now }
{
    if !text.is_empty() && text[text.len() - 1] == last {
        &text[..text.len() - 1]
    } else {
        text
    }
}

/// Where the first line feed is.
fn line_feed_at(text: &[u8]) -> Option<usize>
    ensures { result ≡ position (λ b. b == 10) text.now }
{
    text.iter().position(|b| *b == b'\n')
}

/// The first line of a text that isn't empty, and what is after the line's end.
pub(crate) fn first_line(text: &[u8]) -> (&[u8], &[u8])
    requires { 0 < length text.now }
    ensures cut { trace_text_lines text.now ≡ result.0.now ∷ trace_text_lines result.1.now }
    ensures shorter { length result.1.now < length text.now }
{
    match line_feed_at(text) {
        None => (text, b""),
        Some(end) => (without_end(b'\r', &text[..end]), &text[end + 1..]),
    }
}

/// Whether a line has blanks and a comment alone.
pub(crate) fn is_passed_over(line: &[u8]) -> bool
    ensures { result ≡ is_passed_over line.now }
{
    gap_len(line) == line.len()
}

/// The line without the blanks at its end.
pub(crate) fn without_blanks(line: &[u8]) -> &[u8]
    ensures { result.now ≡ without_blanks line.now }
{
    let mut end = line.len();
    while end > 0 && is_blank(line[end - 1]) {
        end -= 1;
    }
    &line[..end]
}

/// The text of a line's term: the line without the blanks at its end and without a full stop before them.
pub(crate) fn term_text(line: &[u8]) -> &[u8]
    ensures { result.now ≡ term_text line.now }
{
    without_end(b'.', without_blanks(line))
}
