// The texts of the test of a match specification that aren't what they should be.
ghost use Rattle.std.specs.Prelude.{◌≡◌, Some};
ghost use Rattle.std.specs.Fmt.{DisplaysOnOk};
ghost use Rattle.def_notice.specs.NoticeTexts.{test_fault_text, test_text_name};
ghost use Rattle.tn_notice.specs.TestViews.{term_fault_seen, test_fault_seen, test_text_seen};

use std::fmt;
use std::fmt::{Display, Formatter, Write};
use tn_text::TextFault;

/// A text of the test of a match specification.
#[derive(Clone, Copy)]
pub enum TestText {
    List,
    Caller,
    Specification,
}

impl TestText {
    /// Its name.
    pub fn name(self) -> &'static str
        ensures { result.now ≡ test_text_name (test_text_seen self) }
    {
        match self {
            TestText::List => "list",
            TestText::Caller => "caller",
            TestText::Specification => "specification",
        }
    }
}

impl Display for TestText {
    ghost output = { λ t. Some (test_text_name (test_text_seen t)) };

    fn fmt<W: Write>(&self, f: &mut Formatter<W>) -> fmt::Result {
        f.write_str(self.name())
    }
}

/// Why a text of a test isn't what it should be.
#[derive(Clone, Copy)]
pub enum TestTextFault<'a> {
    /// It is no list.
    NoList,
    /// It is no `{Module,Function,Arity}`.
    NoFunction,
    /// It is no term.
    NoTerm(TextFault),
    /// Another reason, in words.
    Words(&'a str),
}

/// Shows why a text is no term.
fn show_term_fault<W: Write>(fault: TextFault, f: &mut Formatter<W>) -> fmt::Result
    ensures { DisplaysOnOk W.write_str_gives f.old result (Some (test_fault_text (term_fault_seen fault))) f.new }
{
    match fault {
        TextFault::TooLong => f.write_str("the text is too long"),
        TextFault::Token { at } => write!(f, "no term goes on so at {at}"),
        TextFault::TooDeep { at } => write!(f, "too deep at {at}"),
        TextFault::TooLarge { at } => write!(f, "too large at {at}"),
        TextFault::OutOfMemory => f.write_str("out of memory"),
    }
}

impl Display for TestTextFault<'_> {
    ghost output = { λ f. Some (test_fault_text (test_fault_seen f)) };

    fn fmt<W: Write>(&self, f: &mut Formatter<W>) -> fmt::Result {
        match self {
            TestTextFault::NoList => f.write_str("no list"),
            TestTextFault::NoFunction => f.write_str("no {Module,Function,Arity}"),
            TestTextFault::NoTerm(fault) => show_term_fault(*fault, f),
            TestTextFault::Words(words) => f.write_str(words),
        }
    }
}
