// What an output that isn't the one that is expected has otherwise.
ghost use Rattle.std.specs.Prelude.{◌≡◌, ◌⊎◌, ◌≢◌, None, Some, IfNone, IfSome};
ghost use Rattle.std.specs.Char.{is_control};
ghost use Rattle.std.specs.List.{list_any};
ghost use Rattle.std.specs.Option.{option_map};
ghost use Rattle.std.specs.Str.{chars};
ghost use Rattle.def_notice.specs.DifferenceTexts.{SaysLine, SaysPair, lack_of_lines, lines_without_text, one_line};
ghost use Rattle.def_notice.specs.DifferenceTexts.{output_difference_text, side_text, two_lines};
ghost use Rattle.def_notice.specs.DifferenceTexts.{SaysAlignedLine, aligned_line, aligned_sign, range_text};
ghost use Rattle.def_notice.specs.DifferenceTexts.{ends_in_return, return_difference};
ghost use Rattle.tn_notice.specs.DifferenceViews.{aligned_side_seen, difference_seen_of, range_seen, side_seen};
ghost use Rattle.tn_notice.specs.PrintableLines.{IsPrintable};

use std::fmt;
use std::fmt::{Display, Formatter, Write};

/// One of the two outputs.
#[derive(Clone, Copy)]
pub enum Side {
    Expected,
    Found,
}

impl Display for Side {
    ghost output = { λ s. Some (side_text (side_seen s)) };

    fn fmt<W: Write>(&self, f: &mut Formatter<W>) -> fmt::Result {
        match self {
            Side::Expected => f.write_str("expected"),
            Side::Found => f.write_str("found"),
        }
    }
}

/// A line of an alignment: of both outputs, or of one of them alone.
#[derive(Clone, Copy)]
pub enum AlignedSide {
    Both,
    Expected,
    Found,
}

impl Display for AlignedSide {
    ghost output = { λ s. Some (aligned_sign (aligned_side_seen s)) };

    fn fmt<W: Write>(&self, f: &mut Formatter<W>) -> fmt::Result {
        match self {
            AlignedSide::Both => f.write_str(" "),
            AlignedSide::Expected => f.write_str("-"),
            AlignedSide::Found => f.write_str("+"),
        }
    }
}

/// So many lines, of which the first has this number; where there are none, the number is that of the line before them.
#[derive(Clone, Copy, Debug, PartialEq, Eq)]
pub struct LineRange {
    pub first: u64,
    pub count: u64,
}

impl Display for LineRange {
    ghost output = { λ r. Some (range_text (range_seen r)) };

    fn fmt<W: Write>(&self, f: &mut Formatter<W>) -> fmt::Result {
        let LineRange { first, count } = self;
        write!(f, "{first},{count}")
    }
}

/// What there is to say of an output that isn't the one that is expected. Lines are counted from 1, and a line that
/// isn't printable has no text here.
#[derive(Clone, Copy)]
pub enum OutputDifference<'a> {
    /// A line that the other output lacks.
    OneLine {
        side: Side,
        number: u64,
        text: Option<&'a str>,
    },
    /// Two lines of one number.
    TwoLines {
        number: u64,
        expected: &'a str,
        found: &'a str,
    },
    /// Two lines of one number, one of which isn't printable.
    LinesWithoutText {
        number: u64,
    },
    /// The same, but for the line feed at the end.
    LastLineFeed {
        number: u64,
    },
    /// Lines are missing here, and lines of both come after them.
    NoLine(Side),
    /// Lines are missing here, and none comes after them.
    EndOfOutput(Side),
    /// There are more lines.
    MoreLines(Side),
    /// There may be more differences.
    MoreDifferences,
    /// A line that is expected ends in a carriage return.
    LineWithReturn {
        number: u64,
    },
    /// Which sign is of which output.
    AlignedOutput(Side),
    /// Which lines come next.
    AlignedRanges {
        expected: LineRange,
        found: LineRange,
    },
    /// A line of an alignment.
    AlignedLine {
        side: AlignedSide,
        text: Option<&'a str>,
    },
}

impl Display for OutputDifference<'_> {
    ghost output = { λ x. Some (output_difference_text (difference_seen_of x)) };

    fn fmt<W: Write>(&self, f: &mut Formatter<W>) -> fmt::Result {
        match self {
            OutputDifference::OneLine {
                side,
                number,
                text: Some(text),
            } => write!(f, "{side} line {number}: {text}"),
            OutputDifference::OneLine {
                side,
                number,
                text: None,
            } => write!(f, "{side} line {number}, which isn't printable"),
            OutputDifference::TwoLines {
                number,
                expected,
                found,
            } => write!(
                f,
                "expected line {number}: {expected}\nfound line {number}: {found}"
            ),
            OutputDifference::LinesWithoutText { number } => write!(f, "line {number} differs"),
            OutputDifference::LastLineFeed { number } => {
                write!(f, "line {number} differs in the line feed at its end")
            }
            OutputDifference::NoLine(side) => write!(f, "{side} no line here"),
            OutputDifference::EndOfOutput(side) => write!(f, "{side} the end of the output"),
            OutputDifference::MoreLines(side) => write!(f, "{side} more lines"),
            OutputDifference::MoreDifferences => f.write_str("more lines may differ"),
            OutputDifference::LineWithReturn { number } => write!(
                f,
                "expected line {number} ends in a carriage return, which no line of an output has"
            ),
            OutputDifference::AlignedOutput(Side::Expected) => f.write_str("--- expected"),
            OutputDifference::AlignedOutput(Side::Found) => f.write_str("+++ found"),
            OutputDifference::AlignedRanges { expected, found } => {
                write!(f, "@@ -{expected} +{found} @@")
            }
            OutputDifference::AlignedLine {
                side,
                text: Some(text),
            } => write!(f, "{side}{text}"),
            OutputDifference::AlignedLine { side, text: None } => {
                write!(f, "{side}(a line that isn't printable)")
            }
        }
    }
}

/// Whether the text has a control character.
fn has_control(text: &str) -> bool
    ensures { result ≡ list_any is_control (chars text.now) }
{
    text.chars().any(|letter| letter.is_control())
}

/// A line as it is printed: None where it is no text, or has control characters.
fn printable(line: &[u8]) -> Option<&str>
    ensures text { IfSome result (λ text. text.now ≡ line.now) }
    ensures some { IfSome result (λ text. IsPrintable line.now) }
    ensures none { IfNone result (IsPrintable line.now → ⊥) }
{
    let Ok(text) = str::from_utf8(line) else {
        return None;
    };
    if has_control(text) {
        return None;
    }
    Some(text)
}

/// What is said of a line that the other output lacks.
pub fn line_difference(side: Side, number: u64, line: &[u8]) -> OutputDifference<'_>
    ensures line { SaysLine (side_seen side) number line.now (difference_seen_of result) }
    ensures text { IsPrintable line.now
        → difference_seen_of result ≡ one_line (side_seen side) number (Some line.now) }
    ensures none { (IsPrintable line.now → ⊥)
        → difference_seen_of result ≡ one_line (side_seen side) number None }
{
    OutputDifference::OneLine {
        side,
        number,
        text: printable(line),
    }
}

/// What is said of a line of an alignment.
pub fn aligned_difference(side: AlignedSide, line: &[u8]) -> OutputDifference<'_>
    ensures line { SaysAlignedLine (aligned_side_seen side) line.now (difference_seen_of result) }
    ensures text { IsPrintable line.now
        → difference_seen_of result ≡ aligned_line (aligned_side_seen side) (Some line.now) }
    ensures none { (IsPrintable line.now → ⊥)
        → difference_seen_of result ≡ aligned_line (aligned_side_seen side) None }
{
    OutputDifference::AlignedLine {
        side,
        text: printable(line),
    }
}

/// What is said of two lines that differ.
fn difference_of_two<'a>(number: u64, expected: &'a [u8], found: &'a [u8]) -> OutputDifference<'a>
    ensures either { (difference_seen_of result ≡ two_lines number expected.now found.now)
        ⊎ (difference_seen_of result ≡ lines_without_text number) }
    ensures texts { IsPrintable expected.now → IsPrintable found.now
        → difference_seen_of result ≡ two_lines number expected.now found.now }
    ensures without { (IsPrintable expected.now → IsPrintable found.now → ⊥)
        → difference_seen_of result ≡ lines_without_text number }
{
    match (printable(expected), printable(found)) {
        (Some(expected), Some(found)) => OutputDifference::TwoLines {
            number,
            expected,
            found,
        },
        _ => OutputDifference::LinesWithoutText { number },
    }
}

/// What is said of two lines of one number: nothing where they are the same.
pub fn pair_difference<'a>(
    number: u64,
    expected: &'a [u8],
    found: &'a [u8],
) -> Option<OutputDifference<'a>>
    ensures pair { SaysPair number expected.now found.now (option_map difference_seen_of result) }
    ensures texts { expected.now ≢ found.now → IsPrintable expected.now → IsPrintable found.now
        → option_map difference_seen_of result ≡ Some (two_lines number expected.now found.now) }
    ensures without { expected.now ≢ found.now → (IsPrintable expected.now → IsPrintable found.now → ⊥)
        → option_map difference_seen_of result ≡ Some (lines_without_text number) }
{
    if expected == found {
        return None;
    }
    Some(difference_of_two(number, expected, found))
}

/// Whether the line ends in a carriage return.
fn ends_in_return(line: &[u8]) -> bool
    ensures { result ≡ ends_in_return line.now }
{
    let before = line.len().saturating_sub(1);
    &line[before..] == b"\r".as_slice()
}

/// What is said of two lines of one number, where the expected one alone ends in a carriage return.
pub fn return_difference(
    number: u64,
    expected: &[u8],
    found: &[u8],
) -> Option<OutputDifference<'static>>
    ensures { option_map difference_seen_of result ≡ return_difference number expected.now found.now }
{
    if ends_in_return(expected) && !ends_in_return(found) {
        Some(OutputDifference::LineWithReturn { number })
    } else {
        None
    }
}

/// What is said of an output that has no line where the other has some: it ends there, or goes on with lines of both.
pub fn lack_of_lines(side: Side, is_end: bool) -> OutputDifference<'static>
    ensures { difference_seen_of result ≡ lack_of_lines (side_seen side) is_end }
{
    if is_end {
        OutputDifference::EndOfOutput(side)
    } else {
        OutputDifference::NoLine(side)
    }
}
