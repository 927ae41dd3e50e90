// What the output of a request must be.
ghost use Rattle.std.specs.Prelude.{◌≡◌, IfErr, IfOk, IfSome};
ghost use Rattle.std.specs.Option.{option_map};
ghost use Rattle.std.specs.Process.{exit_status};
ghost use Rattle.tn_expectation.specs.Expectations.{IsListingHead};
ghost use Rattle.tn_command.specs.Status.{IsFailure, IsStatus};
ghost use Rattle.tn_request.specs.ExpectationsAsked.{IsExpectationAsked, IsSessionAsked};

use crate::request::{ExpectationArgs, SessionArgs};
use std::process::ExitCode;
use std::rt::Files;
use tn_command::{Source, expected_text, report};
use tn_expectation::{Expectation, SessionListing, listing_head};
use tn_notice::CommandFault;

/// The texts that an output is compared with.
#[derive(Drop)]
pub struct ExpectedTexts {
    /// The output that is expected.
    pub output: Option<Vec<u8>>,
    /// The listing of a session that is expected.
    pub listing: Option<Vec<u8>>,
    /// What the first line of that listing begins with.
    pub head: Vec<u8>,
}

/// What the first line of the listing of a session begins with; nothing where none is named.
fn head_of<R: Eprint + AllocGlobal>(
    rt: &R,
    session: Option<SessionArgs<'_>>,
) -> Result<Vec<u8>, ExitCode>
    ensures head { IfOk result (λ v. IfSome session.entry (λ s. IsListingHead s.name.now v.items)) }
    ensures refused { IfErr result (λ s. IsStatus (exit_status s)) }
{
    let Some(session) = session else {
        return Ok(Vec::new(rt.alloc()));
    };
    match listing_head(rt.alloc(), session.name) {
        Ok(head) => Ok(head),
        Err(_) => Err(report(rt, CommandFault::Memory)),
    }
}

/// Where the listing of a session is.
pub(crate) fn listing_source<'a>(session: Option<SessionArgs<'a>>) -> Option<Source<'a>>
    ensures { result ≡ option_map (λ words. words.source) session.entry }
{
    match session {
        Some(session) => Some(session.source),
        None => None,
    }
}

/// Reads the texts that an output is compared with by the words of the command line. Each has at most so many bytes.
///
/// # Errors
///
/// The status, after a line on standard error.
pub fn expected_texts<R: Input + Files + Eprint + AllocGlobal>(
    rt: &R,
    words: &ExpectationArgs<'_>,
    most: usize,
) -> Result<ExpectedTexts, ExitCode>
    ensures { IfErr result (λ s. IsStatus (exit_status s)) }
{
    let output = expected_text(rt, words.output, most)?;
    let listing = expected_text(rt, listing_source(words.session), most)?;
    let head = head_of(rt, words.session)?;
    Ok(ExpectedTexts {
        output,
        listing,
        head,
    })
}

/// The listing of a session that is expected, where one is named and was read.
fn listing_of<'a>(
    words: &ExpectationArgs<'a>,
    texts: &'a ExpectedTexts,
) -> Option<SessionListing<'a>>
    ensures { IsSessionAsked words.now texts.now result }
{
    let Some(session) = words.session else {
        return None;
    };
    match &texts.listing {
        Some(lines) => Some(SessionListing {
            name: session.name,
            head: &texts.head,
            lines,
        }),
        None => None,
    }
}

/// What an output must be by the words of the command line, with the texts that were read.
pub fn expectation_of<'a>(words: &ExpectationArgs<'a>, texts: &'a ExpectedTexts) -> Expectation<'a>
    ensures { IsExpectationAsked words.now texts.now result }
{
    Expectation {
        output: texts.output.as_deref(),
        session: listing_of(words, texts),
        lines: words.lines,
        no_lines: words.no_lines,
        strict: words.strict,
    }
}
