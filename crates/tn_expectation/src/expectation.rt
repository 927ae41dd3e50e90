// What the output of a command must be, and whether it is.
ghost use Rattle.std.specs.Prelude.{◌≡◌, ℕ, List, true, not};
ghost use Rattle.std.specs.List.{list_all};
ghost use Rattle.std.specs.Option.{option_map, option_map_or};
ghost use Rattle.std.specs.Str.{bytes_eq};
ghost use Rattle.tn_expectation.specs.Expectations.{first_absent, first_present, has_line, lists_session};
ghost use Rattle.tn_expectation.specs.Expectations.{meets_expectation, words_of};

use crate::listing::SessionListing;
use tn_formats::first_line;

/// What an output must be. Where it names nothing, each output meets it.
#[derive(Clone, Copy)]
pub struct Expectation<'a> {
    /// The output must be these bytes.
    pub output: Option<&'a [u8]>,
    /// The output must have this listing.
    pub session: Option<SessionListing<'a>>,
    /// The output must have each of these lines.
    pub lines: &'a [&'a str],
    /// The output must have none of these lines.
    pub no_lines: &'a [&'a str],
    /// No command may be refused, match no function or have a trap, and the script must have forms. This isn't about
    /// the output.
    pub strict: bool,
}

/// Whether one of the lines of a text is this one.
pub(crate) fn text_has_line(text: &[u8], line: &[u8]) -> bool
    ensures { result ≡ has_line text.now line.now }
{
    let mut rest = text;
    while !rest.is_empty() {
        let (first, after) = first_line(rest);
        if first == line {
            return true;
        }
        rest = after;
    }
    false
}

impl<'a> Expectation<'a> {
    /// Nothing is expected.
    pub const NONE: Expectation<'static> = Expectation {
        output: None,
        session: None,
        lines: &[],
        no_lines: &[],
        strict: false,
    };

    /// Whether nothing is expected, so that each output meets it.
    pub fn is_none(&self) -> bool
        ensures { result ≡ true → (output : List ℕ) → meets_expectation self.now output ≡ true }
    {
        self.output.is_none()
            && self.session.is_none()
            && self.lines.is_empty()
            && self.no_lines.is_empty()
    }

    /// Whether the output is the one that is expected, where one is.
    pub(crate) fn has_output(&self, output: &[u8]) -> bool
        ensures { result ≡ option_map_or (λ whole. bytes_eq output.now whole.now) self.now.output true }
    {
        match self.output {
            Some(whole) => output == whole,
            None => true,
        }
    }

    /// Whether the output has the listing that it must have, where there is one.
    pub(crate) fn has_session(&self, output: &[u8]) -> bool
        ensures { result ≡ option_map_or (lists_session output.now) self.now.session true }
    {
        match self.session {
            Some(listing) => listing.is_in(output),
            None => true,
        }
    }

    /// The first line that the output must have and hasn't.
    pub(crate) fn absent_line(&self, output: &[u8]) -> Option<&'a str>
        ensures { option_map (λ line. line.now) result ≡ first_absent output.now (words_of self.now.lines.now) }
    {
        for line in self.lines {
            if !text_has_line(output, line.as_bytes()) {
                return Some(*line);
            }
        }
        None
    }

    /// The first line that the output must not have and has.
    pub(crate) fn unwanted_line(&self, output: &[u8]) -> Option<&'a str>
        ensures { option_map (λ line. line.now) result ≡ first_present output.now (words_of self.now.no_lines.now) }
    {
        for line in self.no_lines {
            if text_has_line(output, line.as_bytes()) {
                return Some(*line);
            }
        }
        None
    }

    /// Whether the output has each line that it must have.
    fn has_lines(&self, output: &[u8]) -> bool
        ensures { result ≡ list_all (has_line output.now) (words_of self.now.lines.now) }
    {
        match self.absent_line(output) {
            Some(_) => false,
            None => true,
        }
    }

    /// Whether the output has no line that it must not have.
    fn lacks_lines(&self, output: &[u8]) -> bool
        ensures { result ≡ list_all (λ line. not (has_line output.now line)) (words_of self.now.no_lines.now) }
    {
        match self.unwanted_line(output) {
            Some(_) => false,
            None => true,
        }
    }

    /// Whether the output is all that it must be.
    pub fn meets(&self, output: &[u8]) -> bool
        ensures { result ≡ meets_expectation self.now output.now }
    {
        self.has_output(output)
            && self.has_session(output)
            && self.has_lines(output)
            && self.lacks_lines(output)
    }
}
