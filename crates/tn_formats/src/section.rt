// The lines of a section.
ghost use Rattle.std.specs.Prelude.{◌≡◌, ◌∷◌, ◌+◌, ◌<◌, ◌≤◌, ℕ, [], length, MatchOption, nat_eq};
ghost use Rattle.def_formats.specs.Sections.{is_section_head, section_lines};

use crate::lines::first_line;

/// Whether a line begins a section.
pub(crate) fn is_section_head(line: &[u8]) -> bool
    ensures { result ≡ is_section_head line.now }
{
    line.starts_with(b"== ")
}

/// The next line of a section, and the text after it; None where the section ends.
pub(crate) fn next_line(text: &[u8]) -> Option<(&[u8], &[u8])>
    ensures line { MatchOption result (section_lines text.now ≡ [])
        (λ r. section_lines text.now ≡ r.0.now ∷ section_lines r.1.now) }
    ensures within { MatchOption result (Unit {0}) (λ r. length r.0.now + length r.1.now ≤ length text.now) }
    ensures shorter { MatchOption result (Unit {0}) (λ r. length r.1.now < length text.now) }
{
    if text.is_empty() {
        return None;
    }
    let (line, after) = first_line(text);
    if is_section_head(line) {
        None
    } else {
        Some((line, after))
    }
}

/// How many lines a section has.
pub(crate) fn line_count(text: &[u8]) -> usize
    ensures { result ≡ length (section_lines text.now) }
{
    let mut count = 0;
    let mut rest = text;
    while let Some((_, after)) = next_line(rest) {
        count += 1;
        rest = after;
    }
    count
}
