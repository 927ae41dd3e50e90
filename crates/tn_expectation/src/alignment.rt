// The difference of two outputs as their alignment, with two lines around each change.
ghost use Rattle.std.specs.Prelude.{◌≡◌, ◌<◌, length, map, reverse, IfOk, IfSome};
ghost use Rattle.def_formats.specs.Lines.{before_byte, past_byte, text_lines};
ghost use Rattle.def_alignment.specs.Alignments.{IsAlignment};
ghost use Rattle.def_notice.specs.DifferenceTexts.{SaysAlignedLine};
ghost use Rattle.tn_notice.specs.DifferenceViews.{difference_seen_of};
ghost use Rattle.tn_alignment.specs.Tables.{line_step_seen, line_texts};
ghost use Rattle.tn_expectation.specs.AlignedLines.{line_by, side_by};

use std::alloc::{AllocError, Global};
use tn_alignment::{Step, alignment};
use tn_formats::first_line;
use tn_notice::{
    AlignedSide, LineRange, Notice, OutputDifference, Side, aligned_difference, print_notice,
};

/// How many lines of a difference are printed.
pub(crate) const MOST_LINES: u64 = 100;

/// How many lines of both are printed before and after each change.
const AROUND: usize = 2;

/// How many pairs of lines are compared at most.
const MOST_PAIRS: usize = 4_000_000;

/// Where a walk through two outputs is: what is left of them, and the numbers of the next lines.
#[derive(Clone, Copy)]
pub(crate) struct Place<'a> {
    pub(crate) expected: &'a [u8],
    pub(crate) found: &'a [u8],
    pub(crate) expected_number: u64,
    pub(crate) found_number: u64,
}

/// The first line of a text, and what is after it; nothing and nothing where there is none.
pub(crate) fn line_of(text: &[u8]) -> (&[u8], &[u8])
    ensures line { result.0.now ≡ before_byte 10 text.now }
    ensures after { result.1.now ≡ past_byte 10 text.now }
{
    if text.is_empty() {
        (b"", b"")
    } else {
        first_line(text)
    }
}

impl<'a> Place<'a> {
    /// After a line of the expected output.
    fn past_expected(self) -> Place<'a>
        ensures expected { result.expected.now ≡ past_byte 10 self.entry.expected.now }
        ensures found { result.found ≡ self.entry.found }
    {
        Place {
            expected: line_of(self.expected).1,
            expected_number: self.expected_number.saturating_add(1),
            ..self
        }
    }

    /// After a line of the output that was found.
    fn past_found(self) -> Place<'a>
        ensures expected { result.expected ≡ self.entry.expected }
        ensures found { result.found.now ≡ past_byte 10 self.entry.found.now }
    {
        Place {
            found: line_of(self.found).1,
            found_number: self.found_number.saturating_add(1),
            ..self
        }
    }

    /// After a step.
    pub(crate) fn past(self, step: Step) -> Place<'a> {
        match step {
            Step::Both => self.past_expected().past_found(),
            Step::First => self.past_expected(),
            Step::Second => self.past_found(),
        }
    }

    /// The next line by a step.
    fn difference(&self, step: Step) -> OutputDifference<'a>
        ensures { SaysAlignedLine (side_by (line_step_seen step))
            (line_by (line_step_seen step) self.now.expected.now self.now.found.now) (difference_seen_of result) }
    {
        match step {
            Step::Both => aligned_difference(AlignedSide::Both, line_of(self.expected).0),
            Step::First => aligned_difference(AlignedSide::Expected, line_of(self.expected).0),
            Step::Second => aligned_difference(AlignedSide::Found, line_of(self.found).0),
        }
    }
}

/// The lines of a text, the last one first; None where there are more than so many.
fn lines_of(alloc: Global, text: &[u8], most: usize) -> Result<Option<Vec<&[u8]>>, AllocError>
    ensures { IfOk result (λ o. IfSome o (λ v. line_texts v.items ≡ reverse (text_lines text.now))) }
{
    let mut lines = Vec::new(alloc);
    let mut rest = text;
    while !rest.is_empty() {
        if lines.len() >= most {
            return Ok(None);
        }
        let (line, after) = first_line(rest);
        lines.push(line)?;
        rest = after;
    }
    lines.reverse();
    Ok(Some(lines))
}

/// The steps through the lines of two outputs; None where there are too many pairs of lines.
fn steps_through(
    alloc: Global,
    expected: &[u8],
    found: &[u8],
) -> Result<Option<Vec<Step>>, AllocError>
    ensures { IfOk result (λ o. IfSome o (λ v. IsAlignment (map line_step_seen v.items)
        (text_lines expected.now) (text_lines found.now))) }
{
    let Some(expected_lines) = lines_of(alloc, expected, MOST_PAIRS)? else {
        return Ok(None);
    };
    let most = MOST_PAIRS / (expected_lines.len() + 1);
    let Some(found_lines) = lines_of(alloc, found, most)? else {
        return Ok(None);
    };
    Ok(Some(alignment(alloc, &expected_lines, &found_lines)?))
}

/// Whether the line of a step is printed: a change is within so many lines of it.
fn is_shown(steps: &[Step], at: usize) -> bool
    requires { at < length steps.now }
{
    let from = at.saturating_sub(AROUND);
    let end = at.saturating_add(AROUND + 1).min(steps.len());
    steps[from..end].iter().any(|step| *step != Step::Both)
}

/// How many steps from this one on are printed, one after the other.
fn shown_count(steps: &[Step], at: usize) -> usize {
    let mut end = at;
    while end < steps.len() && is_shown(steps, end) {
        end += 1;
    }
    end.saturating_sub(at)
}

/// So many lines from the one with this number on.
fn range_of(number: u64, count: usize) -> LineRange {
    let first = if count == 0 {
        number.saturating_sub(1)
    } else {
        number
    };
    LineRange {
        first,
        count: count as u64,
    }
}

/// Which lines these steps go through.
fn ranges_of(steps: &[Step], place: &Place<'_>) -> OutputDifference<'static> {
    let expected = steps.iter().filter(|step| **step != Step::Second).count();
    let found = steps.iter().filter(|step| **step != Step::First).count();
    OutputDifference::AlignedRanges {
        expected: range_of(place.expected_number, expected),
        found: range_of(place.found_number, found),
    }
}

/// Prints what an output has otherwise.
pub(crate) fn print_difference<R: Eprint>(rt: &R, difference: OutputDifference<'_>) {
    print_notice(rt, Notice::Difference(difference));
}

/// Prints which lines come next, where the lines before them aren't printed.
fn print_ranges<R: Eprint>(rt: &R, steps: &[Step], at: usize, place: &Place<'_>)
    requires { at < length steps.now }
{
    if at > 0 && is_shown(steps, at - 1) {
        return;
    }
    let end = at
        .saturating_add(shown_count(steps, at))
        .min(steps.len())
        .max(at);
    print_difference(rt, ranges_of(&steps[at..end], place));
}

/// Prints the lines of steps that are changes, and those around them, from this place on.
fn print_steps<R: Eprint>(rt: &R, steps: &[Step], place: Place<'_>) {
    let mut place = place;
    let mut printed: u64 = 0;
    for (at, step) in steps.iter().enumerate() {
        if is_shown(steps, at) {
            if printed >= MOST_LINES {
                print_difference(rt, OutputDifference::MoreDifferences);
                return;
            }
            print_ranges(rt, steps, at, &place);
            print_difference(rt, place.difference(*step));
            printed = printed.saturating_add(1);
        }
        place = place.past(*step);
    }
}

/// Says where two outputs differ, aligned, from this place on. Whether it did: it doesn't where there are too many
/// lines, or where memory was refused.
pub(crate) fn tell_aligned<R: Eprint + AllocGlobal>(rt: &R, place: Place<'_>) -> bool {
    match steps_through(rt.alloc(), place.expected, place.found) {
        Ok(Some(steps)) => {
            print_difference(rt, OutputDifference::AlignedOutput(Side::Expected));
            print_difference(rt, OutputDifference::AlignedOutput(Side::Found));
            print_steps(rt, &steps, place);
            true
        }
        _ => false,
    }
}
