// A text of trace messages, read line by line.
ghost use Rattle.std.specs.Prelude.{◌≡◌, ◌++◌, IfOk, IfErr};
ghost use Rattle.def_trace_text.specs.Lines.{trace_text_lines};
ghost use Rattle.def_trace_text.specs.DbgLines.{further_text, with_further, whole_line};
ghost use Rattle.tn_term.specs.Views.{tree_of};
ghost use Rattle.tn_trace_text.specs.Faults.{term_fault_at};
ghost use Rattle.tn_trace_text.specs.Readings.{IsMessageOfLine, IsTextRead, IsTextReadWithout};
ghost use Rattle.tn_trace_text.specs.Readings.{IsDbgLineRead, IsLineRead, AddsLine, IsContentFault, IsTraceRead};

use crate::dbg::is_dbg_line;
use crate::error_map::{has_number_sign, without_error_maps};
use crate::fault::TraceFault;
use crate::line::{first_line, is_passed_over, term_text};
use crate::message::is_trace_message;
use crate::stack_trace::without_stacks;
use crate::whole_line::{is_further, is_inside_after, whole_text};
use std::alloc::Allocator;
use tn_term::Term;
use tn_text::{TextFault, read_term};

/// The fault of a line whose term's text is refused.
fn fault_at(line: usize, fault: TextFault) -> TraceFault
    ensures { result ≡ term_fault_at line fault }
{
    match fault {
        TextFault::OutOfMemory => TraceFault::OutOfMemory,
        TextFault::TooLong
        | TextFault::Token { .. }
        | TextFault::TooDeep { .. }
        | TextFault::TooLarge { .. } => TraceFault::NoTerm { line, fault },
    }
}

/// The trace message that a term of the line of this number is, without stack traces.
fn message_of<A: Allocator + Copy>(
    alloc: A,
    term: &Term<A>,
    number: usize,
) -> Result<Term<A>, TraceFault>
    ensures { IsMessageOfLine (tree_of term.now) number result }
{
    if !is_trace_message(term) {
        return Err(TraceFault::NoMessage { line: number });
    }
    match without_stacks(alloc, term) {
        Ok(message) => Ok(message),
        Err(_) => Err(TraceFault::OutOfMemory),
    }
}

/// The trace message that the text of a line spells, which has this number.
fn read_text<A: Allocator + Copy>(
    alloc: A,
    text: &[u8],
    number: usize,
) -> Result<Term<A>, TraceFault>
    ensures { IsTextRead text.now number result }
{
    match read_term(alloc, text) {
        Err(fault) => Err(fault_at(number, fault)),
        Ok(term) => message_of(alloc, &term, number),
    }
}

/// The trace message that a text spells without the maps of errors in it. The line has this number.
fn read_without_maps<A: Allocator + Copy>(
    alloc: A,
    text: &[u8],
    number: usize,
) -> Result<Term<A>, TraceFault>
    ensures { IsTextReadWithout text.now number result }
{
    if !has_number_sign(text) {
        return read_text(alloc, text, number);
    }
    match without_error_maps(alloc, text) {
        Ok(text) => read_text(alloc, text.as_slice(), number),
        Err(_) => Err(TraceFault::OutOfMemory),
    }
}

/// The trace message that a line of `dbg` stands for with those that go on with it, of the text after it.
fn read_dbg_line<A: Allocator + Copy>(
    alloc: A,
    line: &[u8],
    after: &[u8],
    number: usize,
) -> Result<Term<A>, TraceFault>
    ensures { IsDbgLineRead (line.now ++ further_text (trace_text_lines after.now)) number result }
{
    match whole_text(alloc, line, after) {
        Ok(text) => read_without_maps(alloc, text.as_slice(), number),
        Err(_) => Err(TraceFault::OutOfMemory),
    }
}

/// The trace message that a line stands for, which has this number and this text after it.
fn read_line<A: Allocator + Copy>(
    alloc: A,
    line: &[u8],
    after: &[u8],
    number: usize,
) -> Result<Term<A>, TraceFault>
    ensures { IsLineRead (with_further line.now (trace_text_lines after.now)) number result }
{
    if is_dbg_line(line) {
        read_dbg_line(alloc, line, after, number)
    } else {
        read_without_maps(alloc, term_text(line), number)
    }
}

/// Adds the trace message that a line stands for, which has this number and this text after it, unless the line is
/// passed over.
fn add_message<A: Allocator + Copy>(
    alloc: A,
    line: &[u8],
    after: &[u8],
    number: usize,
    messages: &mut Vec<Term<A>, A>,
) -> Result<(), TraceFault>
    ensures added { IfOk result (λ _. AddsLine (with_further line.now (trace_text_lines after.now))
        messages.old.items messages.new.items) }
    ensures refused { IfErr result (IsContentFault (with_further line.now (trace_text_lines after.now)) number) }
{
    if is_passed_over(line) {
        return Ok(());
    }
    let message = read_line(alloc, line, after, number)?;
    if messages.push(message).is_err() {
        return Err(TraceFault::OutOfMemory);
    }
    Ok(())
}

/// Adds the trace message that a line stands for, unless the line is passed over or goes on with the line before it;
/// inside of a message it may.
fn add_line<A: Allocator + Copy>(
    alloc: A,
    inside: bool,
    line: &[u8],
    after: &[u8],
    number: usize,
    messages: &mut Vec<Term<A>, A>,
) -> Result<(), TraceFault>
    ensures added { IfOk result (λ _. AddsLine (whole_line inside line.now (trace_text_lines after.now))
        messages.old.items messages.new.items) }
    ensures refused { IfErr result (IsContentFault (whole_line inside line.now (trace_text_lines after.now)) number) }
{
    if inside && is_further(line) {
        return Ok(());
    }
    add_message(alloc, line, after, number, messages)
}

/// The trace messages that a text spells, in their order. A line is the text of one, with a full stop at its end or
/// without, or what `dbg` prints of one; a line after that which begins with a blank goes on with it. A line of blanks
/// and of a comment alone is passed over. A line ends with a line feed, or with a carriage return and a line feed, and
/// the last one may lack its end. A stack trace in a message is the empty list, and so is the map of an error. Each
/// byte is read a fixed number of times at most. Beside the messages it allocates for one line after the other what
/// `read_term` does, for a message of `dbg` two copies of its text, and one for a text with a number sign.
///
/// # Errors
///
/// `NoTerm` or `NoMessage` for the first line that stands for no trace message; `OutOfMemory` where memory was refused.
pub fn read_trace<A: Allocator + Copy>(alloc: A, text: &[u8]) -> Result<Vec<Term<A>, A>, TraceFault>
    ensures { IsTraceRead text.now result }
{
    let mut messages = Vec::new(alloc);
    let mut number = 0;
    let mut inside = false;
    let mut rest = text;
    while !rest.is_empty() {
        let (line, after) = first_line(rest);
        number += 1;
        add_line(alloc, inside, line, after, number, &mut messages)?;
        inside = is_inside_after(inside, line);
        rest = after;
    }
    Ok(messages)
}
