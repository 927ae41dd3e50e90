// The comparison of a trace that a request asks for.
ghost use Rattle.std.specs.Prelude.{◌≡◌, ◌++◌, ◌∷◌, IfErr, IfOk, OnOk, codes};
ghost use Rattle.std.specs.Process.{exit_status};
ghost use Rattle.tn_command.specs.Explorations.{IsExplorationStatus};
ghost use Rattle.tn_request.specs.Comparisons.{IsTraceAsked, trace_fault_text};
ghost use Rattle.tn_trace_text.specs.Readings.{IsTraceFault};

use crate::exploration::explore_within;
use crate::request::ExploreArgs;
use std::alloc::{AllocError, Allocator, Global};
use std::process::ExitCode;
use std::rt::Files;
use tn_answers::SearchQuestion;
use tn_command::{OutputForm, REFUSED, report};
use tn_comparison::TraceQuestion;
use tn_notice::{CommandFault, Notice, escape_controls, plain_name, print_notice};
use tn_text::write_decimal;
use tn_trace_text::{TraceFault, read_trace};

/// The trace that the words ask about, by the text that was read.
///
/// # Errors
///
/// TraceFault where a line of the text spells no trace message, or memory was refused.
pub fn trace_of(
    alloc: Global,
    words: &ExploreArgs<'_>,
    read: &[u8],
) -> Result<TraceQuestion<Global>, TraceFault>
    ensures asked { IfOk result (IsTraceAsked words.now read.now) }
    ensures refused { IfErr result (IsTraceFault read.now) }
{
    let messages = read_trace(alloc, read)?;
    Ok(TraceQuestion {
        messages,
        goes_on: words.goes_on,
    })
}

/// Appends the name of a file, the number of a line, and why the line is refused.
pub fn put_trace_fault<A: Allocator>(
    name: &str,
    line: usize,
    words: &str,
    out: &mut Vec<u8, A>,
) -> Result<(), AllocError>
    ensures { OnOk result (out.new.items ≡ out.old.items ++ trace_fault_text name.now line words.now) }
{
    out.extend_from_slice(name.as_bytes())?;
    out.push(b':')?;
    write_decimal(line, out)?;
    out.extend_from_slice(b": ")?;
    out.extend_from_slice(words.as_bytes())
}

/// Says which line of a file spells no trace message, and why.
fn tell_line<R: Eprint + AllocGlobal>(rt: &R, path: &str, line: usize, words: &str) -> ExitCode
    ensures { IsExplorationStatus (exit_status result) }
{
    let plain = escape_controls(rt.alloc(), path);
    let name = plain_name(&plain, "the file");
    let mut text: Vec<u8, Global> = Vec::new(rt.alloc());
    match put_trace_fault(name, line, words, &mut text) {
        Ok(()) => print_notice(rt, Notice::Line(str::from_utf8(&text).unwrap_or(words))),
        Err(_) => print_notice(rt, Notice::Line(words)),
    }
    ExitCode::from(REFUSED)
}

/// Says why a file has no trace.
fn refuse_trace<R: Eprint + AllocGlobal>(rt: &R, path: &str, fault: TraceFault) -> ExitCode
    ensures { IsExplorationStatus (exit_status result) }
{
    match fault {
        TraceFault::NoTerm { line, .. } => tell_line(rt, path, line, fault.words()),
        TraceFault::NoMessage { line } => tell_line(rt, path, line, fault.words()),
        TraceFault::OutOfMemory => report(rt, CommandFault::Memory),
    }
}

/// Compares the trace that was read from a file with all schedules, as the words say, and writes to standard output.
pub(crate) fn compare_words<R: Input + Files + Print + Eprint + AllocGlobal>(
    rt: &R,
    words: &ExploreArgs<'_>,
    path: &str,
    read: &[u8],
    form: OutputForm,
) -> ExitCode
    ensures { IsExplorationStatus (exit_status result) }
{
    match trace_of(rt.alloc(), words, read) {
        Ok(trace) => {
            let question = SearchQuestion::Trace(&trace);
            explore_within(rt, words, question, form)
        }
        Err(fault) => refuse_trace(rt, path, fault),
    }
}
