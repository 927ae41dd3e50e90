// What is said of an output that isn't what is expected.
ghost use Rattle.std.specs.Prelude.{◌≡◌};
ghost use Rattle.tn_notice.specs.NoticeViews.{notice_seen};
ghost use Rattle.tn_expectation.specs.Unmet.{notice_of_line};

use crate::difference::tell_difference;
use crate::expectation::Expectation;
use crate::listing::SessionListing;
use tn_notice::{Notice, escape_controls, plain_name, print_notice};

/// What is said of a line of the command line, which the output has or hasn't.
fn line_notice(line: &str, is_there: bool) -> Notice<'_>
    ensures { notice_seen result ≡ notice_of_line line.now is_there }
{
    if is_there {
        Notice::HasLine { line }
    } else {
        Notice::LacksLine { line }
    }
}

/// Says of a line of the command line that the output has it, or hasn't.
fn tell_about_line<R: Eprint + AllocGlobal>(rt: &R, line: &str, is_there: bool) {
    let plain = escape_controls(rt.alloc(), line);
    print_notice(
        rt,
        line_notice(plain_name(&plain, "of this text"), is_there),
    );
}

/// Says of a listing that the output hasn't what the output has otherwise.
fn tell_session<R: Eprint + AllocGlobal>(rt: &R, listing: &SessionListing<'_>, output: &[u8]) {
    match listing.listing_in(output) {
        Some(found) => tell_difference(rt, listing.lines, found),
        None => {
            let plain = escape_controls(rt.alloc(), listing.name);
            let name = plain_name(&plain, "of this name");
            print_notice(rt, Notice::LacksListing { name });
        }
    }
}

impl Expectation<'_> {
    /// Says on standard error of each thing that is expected and isn't so what is otherwise.
    pub fn tell_unmet<R: Eprint + AllocGlobal>(&self, rt: &R, output: &[u8]) {
        if let Some(expected) = self.output {
            if !self.has_output(output) {
                tell_difference(rt, expected, output);
            }
        }
        if let Some(listing) = self.session {
            if !self.has_session(output) {
                tell_session(rt, &listing, output);
            }
        }
        if let Some(line) = self.absent_line(output) {
            tell_about_line(rt, line, false);
        }
        if let Some(line) = self.unwanted_line(output) {
            tell_about_line(rt, line, true);
        }
    }
}
