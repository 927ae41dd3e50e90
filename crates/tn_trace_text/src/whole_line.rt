// A line of `dbg` with the lines that go on with it.
ghost use Rattle.std.specs.Prelude.{◌≡◌, ◌++◌, IfOk, OnOk};
ghost use Rattle.def_trace_text.specs.Lines.{trace_text_lines};
ghost use Rattle.def_trace_text.specs.DbgLines.{is_further, further_text, is_inside_after, dbg_text};

use crate::dbg::{begins_with, dbg_text, is_dbg_line};
use crate::line::{first_line, is_passed_over};
use std::alloc::{AllocError, Allocator};

/// Whether a line goes on with the line of `dbg` before it.
pub(crate) fn is_further(line: &[u8]) -> bool
    ensures { result ≡ is_further line.now }
{
    begins_with(b' ', line) && !is_passed_over(line)
}

/// Whether a message may go on after a line.
pub(crate) fn is_inside_after(inside: bool, line: &[u8]) -> bool
    ensures { result ≡ is_inside_after inside line.now }
{
    inside && is_further(line) || is_dbg_line(line)
}

/// Appends the first lines of a text that go on, each after a line feed.
fn put_further<A: Allocator>(text: &[u8], out: &mut Vec<u8, A>) -> Result<(), AllocError>
    ensures { OnOk result (out.new.items ≡ out.old.items ++ further_text (trace_text_lines text.now)) }
{
    let mut rest = text;
    while !rest.is_empty() {
        let (line, after) = first_line(rest);
        if !is_further(line) {
            return Ok(());
        }
        out.push(b'\n')?;
        out.extend_from_slice(line)?;
        rest = after;
    }
    Ok(())
}

/// A line with those that go on with it, of the text after it.
fn with_further<A: Allocator>(alloc: A, line: &[u8], after: &[u8]) -> Result<Vec<u8, A>, AllocError>
    ensures { IfOk result (λ v. v.items ≡ line.now ++ further_text (trace_text_lines after.now)) }
{
    let mut whole = Vec::new(alloc);
    whole.extend_from_slice(line)?;
    put_further(after, &mut whole)?;
    Ok(whole)
}

/// The text of the message of a line of `dbg` with those that go on with it, of the text after it.
pub(crate) fn whole_text<A: Allocator + Copy>(
    alloc: A,
    line: &[u8],
    after: &[u8],
) -> Result<Vec<u8, A>, AllocError>
    ensures { IfOk result (λ v. v.items ≡ dbg_text (line.now ++ further_text (trace_text_lines after.now))) }
{
    let whole = with_further(alloc, line, after)?;
    dbg_text(alloc, whole.as_slice())
}
