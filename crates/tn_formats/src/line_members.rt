// The members of a line that explains, beside its text.
ghost use Rattle.std.specs.Prelude.{◌≡◌};
ghost use Rattle.std.specs.List.{position};
ghost use Rattle.def_formats.specs.JsonRows.{ends_number, front_number, past_number, past_place};
ghost use Rattle.def_formats.specs.JsonRows.{effects_members, bound_members, value_and_bound, value_members};
ghost use Rattle.def_formats.specs.JsonRows.{condition_value, condition_members};
ghost use Rattle.def_formats.specs.JsonRows.{fires_members, clause_members, why_members, arrow_members};
ghost use Rattle.def_formats.specs.JsonRows.{node_members, line_members};
ghost use Rattle.tn_formats.specs.Tokens.{AddsTokens, tokens_of_members};

use crate::atom::value_length;
use crate::parts::{cut_at, without_front};
use crate::values::{put_boolean_member, put_null_member, put_numeral_member, put_text_member};
use json::Writer;
use std::alloc::{AllocError, Allocator};

/// Where the number at the front of a text ends.
fn number_end(text: &[u8]) -> Option<usize>
    ensures { result ≡ position ends_number text.now }
{
    text.iter().position(|b| *b == b':' || *b == b' ')
}

/// The number at the front of a text, and what is after it.
fn cut_number(text: &[u8]) -> (&[u8], &[u8])
    ensures number { result.0.now ≡ front_number text.now }
    ensures after { result.1.now ≡ past_number text.now }
{
    match number_end(text) {
        None => (text, b""),
        Some(end) => (&text[..end], &text[end..]),
    }
}

/// Writes the effects of a clause that fires, where it has some.
fn put_effects<A: Allocator>(writer: &mut Writer<A>, text: &[u8]) -> Result<(), AllocError>
    ensures { AddsTokens result writer.old writer.new (tokens_of_members (effects_members text.now)) }
{
    if text.starts_with(b": ") {
        return put_text_member(writer, "effects", without_front(text, 2));
    }
    Ok(())
}

/// Writes what the variables of a condition are bound to, where it has some.
fn put_bound<A: Allocator>(writer: &mut Writer<A>, text: &[u8]) -> Result<(), AllocError>
    ensures { AddsTokens result writer.old writer.new (tokens_of_members (bound_members text.now)) }
{
    if text.starts_with(b": ") {
        return put_text_member(writer, "bound", without_front(text, 2));
    }
    Ok(())
}

/// Writes the value of a condition, and what its variables are bound to.
fn put_value_and_bound<A: Allocator>(writer: &mut Writer<A>, text: &[u8]) -> Result<(), AllocError>
    ensures { AddsTokens result writer.old writer.new (tokens_of_members (value_and_bound text.now)) }
{
    let end = value_length(text);
    put_text_member(writer, "value", &text[..end])?;
    put_bound(writer, &text[end..])
}

/// Writes the value of a condition, or the part of it that has none.
fn put_value<A: Allocator>(writer: &mut Writer<A>, text: &[u8]) -> Result<(), AllocError>
    ensures { AddsTokens result writer.old writer.new (tokens_of_members (value_members text.now)) }
{
    if text.starts_with(b" is ") {
        return put_value_and_bound(writer, without_front(text, 4));
    }
    if text.starts_with(b" faults at ") {
        return put_text_member(writer, "faults_at", without_front(text, 11));
    }
    Ok(())
}

/// Writes the number of a condition, and its value.
fn put_condition_value<A: Allocator>(writer: &mut Writer<A>, text: &[u8]) -> Result<(), AllocError>
    ensures { AddsTokens result writer.old writer.new (tokens_of_members (condition_value text.now)) }
{
    let (number, rest) = cut_number(text);
    put_numeral_member(writer, "condition", number)?;
    put_value(writer, rest)
}

/// Writes the condition by which a clause doesn't fire, where it is one.
fn put_condition<A: Allocator>(writer: &mut Writer<A>, text: &[u8]) -> Result<(), AllocError>
    ensures { AddsTokens result writer.old writer.new (tokens_of_members (condition_members text.now)) }
{
    if text.starts_with(b": condition ") {
        return put_condition_value(writer, without_front(text, 12));
    }
    Ok(())
}

/// Writes whether a clause fires, with its effects or its condition.
fn put_fires<A: Allocator>(writer: &mut Writer<A>, text: &[u8]) -> Result<(), AllocError>
    ensures { AddsTokens result writer.old writer.new (tokens_of_members (fires_members text.now)) }
{
    if text.starts_with(b" fires") {
        put_boolean_member(writer, "fires", true)?;
        return put_effects(writer, without_front(text, 6));
    }
    put_boolean_member(writer, "fires", false)?;
    put_condition(writer, text)
}

/// What is after the line of a clause of a fun, where that is said.
fn past_place(text: &[u8]) -> &[u8]
    ensures { result.now ≡ past_place text.now }
{
    if text.starts_with(b" (line ") {
        let (_, rest) = cut_at(text, b')');
        return rest;
    }
    text
}

/// Writes the number of a clause, and whether it fires.
fn put_clause<A: Allocator>(writer: &mut Writer<A>, text: &[u8]) -> Result<(), AllocError>
    ensures { AddsTokens result writer.old writer.new (tokens_of_members (clause_members text.now)) }
{
    let (number, rest) = cut_number(text);
    put_numeral_member(writer, "clause", number)?;
    put_fires(writer, past_place(rest))
}

/// Writes that there is no trace message, and why.
fn put_why<A: Allocator>(writer: &mut Writer<A>, text: &[u8]) -> Result<(), AllocError>
    ensures { AddsTokens result writer.old writer.new (tokens_of_members (why_members text.now)) }
{
    put_null_member(writer, "trace_message")?;
    put_text_member(writer, "why", text)
}

/// Writes the trace message, or why there is none.
fn put_arrow<A: Allocator>(writer: &mut Writer<A>, text: &[u8]) -> Result<(), AllocError>
    ensures { AddsTokens result writer.old writer.new (tokens_of_members (arrow_members text.now)) }
{
    if text.starts_with(b"no message: ") {
        return put_why(writer, without_front(text, 12));
    }
    put_text_member(writer, "trace_message", text)
}

/// Writes what a running node does otherwise, where the line says it.
fn put_node<A: Allocator>(writer: &mut Writer<A>, line: &[u8]) -> Result<(), AllocError>
    ensures { AddsTokens result writer.old writer.new (tokens_of_members (node_members line.now)) }
{
    if line.starts_with(b"on a node: ") {
        return put_text_member(writer, "on_a_node", without_front(line, 11));
    }
    Ok(())
}

/// Writes what a line says, by its first words; nothing where it has others.
pub(crate) fn put_line_members<A: Allocator>(
    writer: &mut Writer<A>,
    line: &[u8],
) -> Result<(), AllocError>
    ensures { AddsTokens result writer.old writer.new (tokens_of_members (line_members line.now)) }
{
    if line.starts_with(b"clause ") {
        return put_clause(writer, without_front(line, 7));
    }
    if line.starts_with(b"=> ") {
        return put_arrow(writer, without_front(line, 3));
    }
    put_node(writer, line)
}
