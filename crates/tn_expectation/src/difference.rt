// What an output has otherwise than the one that is expected.
ghost use Rattle.std.specs.Prelude.{◌≤◌, length};

use crate::alignment::{MOST_LINES, Place, line_of, print_difference, tell_aligned};
use tn_formats::first_line;
use tn_notice::{
    OutputDifference, Side, lack_of_lines, line_difference, pair_difference, return_difference,
};

/// Says of the lines from this number on, which one of the two outputs alone has, what was expected or found.
fn tell_lines<R: Eprint>(rt: &R, side: Side, first: u64, text: &[u8]) {
    let mut number = first;
    let mut rest = text;
    while !rest.is_empty() {
        if number >= MOST_LINES.saturating_add(first) {
            print_difference(rt, OutputDifference::MoreLines(side));
            return;
        }
        let (line, after) = first_line(rest);
        print_difference(rt, line_difference(side, number, line));
        rest = after;
        number = number.saturating_add(1);
    }
}

/// Says of all lines from this number on which differ what was expected, and what was found. `is_end` says that no
/// lines that are the same come after them.
fn tell_changes<R: Eprint>(rt: &R, first: u64, expected: &[u8], output: &[u8], is_end: bool) {
    let mut number = first;
    let mut expected = expected;
    let mut output = output;
    while !expected.is_empty() && !output.is_empty() {
        if number >= MOST_LINES.saturating_add(first) {
            print_difference(rt, OutputDifference::MoreDifferences);
            return;
        }
        let (line, expected_rest) = first_line(expected);
        let (found, output_rest) = first_line(output);
        if let Some(difference) = pair_difference(number, line, found) {
            print_difference(rt, difference);
        }
        expected = expected_rest;
        output = output_rest;
        number = number.saturating_add(1);
    }
    if !expected.is_empty() {
        tell_lines(rt, Side::Expected, number, expected);
        print_difference(rt, lack_of_lines(Side::Found, is_end));
    } else if !output.is_empty() {
        print_difference(rt, lack_of_lines(Side::Expected, is_end));
        tell_lines(rt, Side::Found, number, output);
    }
}

/// Whether a line begins where so many bytes are left of a text.
fn is_line_start(text: &[u8], left: usize) -> bool
    requires { left ≤ length text.now }
{
    left == text.len() || text[text.len() - left - 1] == b'\n'
}

/// How many bytes at the end of two texts are the same whole lines.
fn common_end(one: &[u8], other: &[u8]) -> usize
    ensures one { result ≤ length one.now }
    ensures other { result ≤ length other.now }
{
    let mut common = 0;
    for place in 0..one.len().min(other.len()) {
        if one[one.len() - 1 - place] != other[other.len() - 1 - place] {
            return common;
        }
        if is_line_start(one, place + 1) && is_line_start(other, place + 1) {
            common = place + 1;
        }
    }
    common
}

/// Says where two outputs differ that are the same before this place: each line is compared with the one of its number.
fn tell_by_number<R: Eprint>(rt: &R, place: &Place<'_>) {
    let common = common_end(place.expected, place.found);
    let expected = &place.expected[..place.expected.len() - common];
    let found = &place.found[..place.found.len() - common];
    tell_changes(rt, place.expected_number, expected, found, common == 0);
}

/// How many bytes the first lines of a text have, at most so many lines.
fn front_len(text: &[u8], count: usize) -> usize
    ensures { result ≤ length text.now }
{
    let mut rest = text;
    for _ in 0..count {
        if !rest.is_empty() {
            let (_, after) = first_line(rest);
            rest = after;
        }
    }
    text.len() - rest.len()
}

/// The same outputs without the lines at their end that they have in common, but for two of these.
fn without_common_end<'a>(place: &Place<'a>) -> Place<'a> {
    let common = common_end(place.expected, place.found);
    let end = &place.expected[place.expected.len() - common..];
    let cut = common - front_len(end, 2);
    Place {
        expected: &place.expected[..place.expected.len() - cut],
        found: &place.found[..place.found.len() - cut],
        ..*place
    }
}

/// Says where two outputs differ that are the same before this place, which is at most two lines after the other; or
/// that the expected line here ends in a carriage return.
fn tell_from<R: Eprint + AllocGlobal>(rt: &R, place: &Place<'_>, before: &Place<'_>) {
    let (line, _) = line_of(place.expected);
    let (found, _) = line_of(place.found);
    if let Some(difference) = return_difference(place.expected_number, line, found) {
        print_difference(rt, difference);
        return;
    }
    if !tell_aligned(rt, without_common_end(before)) {
        tell_by_number(rt, place);
    }
}

/// Says where an output differs from the one that is expected: their alignment, from two lines before the first change
/// to two lines after the last; or, where there are too many lines, each line that differs from the one of its number.
/// Where the first expected line that differs ends in a carriage return, that alone is said.
pub(crate) fn tell_difference<R: Eprint + AllocGlobal>(rt: &R, expected: &[u8], output: &[u8]) {
    let mut place = Place {
        expected,
        found: output,
        expected_number: 1,
        found_number: 1,
    };
    let mut one_before = place;
    let mut two_before = place;
    while !place.expected.is_empty() && !place.found.is_empty() {
        let (line, expected_rest) = first_line(place.expected);
        let (found, output_rest) = first_line(place.found);
        if line != found {
            break;
        }
        if expected_rest.is_empty() && output_rest.is_empty() {
            let number = place.expected_number;
            print_difference(rt, OutputDifference::LastLineFeed { number });
            return;
        }
        two_before = one_before;
        one_before = place;
        place = Place {
            expected: expected_rest,
            found: output_rest,
            expected_number: place.expected_number.saturating_add(1),
            found_number: place.found_number.saturating_add(1),
        };
    }
    tell_from(rt, &place, &two_before);
}
