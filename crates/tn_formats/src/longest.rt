// The greatest message of a listing.
ghost use Rattle.std.specs.Prelude.{◌≡◌};
ghost use Rattle.def_formats.specs.Sections.{section_lines};
ghost use Rattle.def_formats.specs.Summaries.{longest};
ghost use Rattle.tn_formats.specs.Values.{line_seen};

use crate::section::next_line;

/// A message with its number in the listing, from 1; 0 where there is none.
#[derive(Clone, Copy)]
pub(crate) struct NumberedLine<'a> {
    pub number: usize,
    pub line: &'a [u8],
}

/// The first message of a section that is as long as any.
pub(crate) fn longest(text: &[u8]) -> NumberedLine<'_>
    ensures { line_seen result ≡ longest (section_lines text.now) }
{
    let mut best = NumberedLine {
        number: 0,
        line: b"",
    };
    let mut number = 0;
    let mut rest = text;
    while let Some((line, after)) = next_line(rest) {
        number += 1;
        if best.line.len() < line.len() {
            best = NumberedLine { number, line };
        }
        rest = after;
    }
    best
}
