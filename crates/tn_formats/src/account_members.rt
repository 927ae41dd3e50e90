// The members of a line of an account, beside its text.
ghost use Rattle.std.specs.Prelude.{◌∷◌, codes};
ghost use Rattle.def_formats.specs.Lines.{before_byte, past_byte};
ghost use Rattle.def_formats.specs.JsonRows.{text_value, why_after, reply_members, mark_members, cause_members};
ghost use Rattle.def_formats.specs.JsonRows.{outside_members, account_members};
ghost use Rattle.tn_formats.specs.Tokens.{AddsTokens, tokens_of_members};

use crate::line_members::put_line_members;
use crate::parts::{cut_at, without_front};
use crate::values::{put_boolean_member, put_text_member};
use json::Writer;
use std::alloc::{AllocError, Allocator};

/// Writes the reason of a reply, where there is one.
fn put_reason<A: Allocator>(writer: &mut Writer<A>, text: &[u8]) -> Result<(), AllocError>
    ensures { AddsTokens result writer.old writer.new (tokens_of_members (why_after text.now)) }
{
    if text.starts_with(b" ") {
        return put_text_member(writer, "why", without_front(text, 1));
    }
    Ok(())
}

/// Writes a reply with its reason.
fn put_reasoned<A: Allocator>(writer: &mut Writer<A>, text: &[u8]) -> Result<(), AllocError>
    ensures { AddsTokens result writer.old writer.new (tokens_of_members
        ((codes "reply", text_value (before_byte 58 text.now)) ∷ why_after (past_byte 58 text.now))) }
{
    let (reply, rest) = cut_at(text, b':');
    put_text_member(writer, "reply", reply)?;
    put_reason(writer, rest)
}

/// Writes a reply, with its reason where it has one: a tuple has none.
fn put_reply<A: Allocator>(writer: &mut Writer<A>, text: &[u8]) -> Result<(), AllocError>
    ensures { AddsTokens result writer.old writer.new (tokens_of_members (reply_members text.now)) }
{
    if text.starts_with(b"{") {
        return put_text_member(writer, "reply", text);
    }
    put_reasoned(writer, text)
}

/// Writes the mark that a call gets, has or loses; of any other line what its first words say.
fn put_mark<A: Allocator>(writer: &mut Writer<A>, line: &[u8]) -> Result<(), AllocError>
    ensures { AddsTokens result writer.old writer.new (tokens_of_members (mark_members line.now)) }
{
    if line == b"the call is marked".as_slice() {
        return put_text_member(writer, "mark", b"set");
    }
    if line == b"the call is marked for exceptions".as_slice() {
        return put_text_member(writer, "mark", b"set for exceptions");
    }
    if line == b"the call has no mark".as_slice() {
        return put_text_member(writer, "mark", b"none");
    }
    if line == b"the call is marked for returns alone".as_slice() {
        return put_text_member(writer, "mark", b"for returns alone");
    }
    if line == b"the mark is gone".as_slice() {
        return put_text_member(writer, "mark", b"gone");
    }
    put_line_members(writer, line)
}

/// Writes why there is no trace message, where the line is the reason as a whole.
fn put_cause<A: Allocator>(writer: &mut Writer<A>, line: &[u8]) -> Result<(), AllocError>
    ensures { AddsTokens result writer.old writer.new (tokens_of_members (cause_members line.now)) }
{
    if line == b"no clause fires".as_slice() {
        return put_boolean_member(writer, "fires", false);
    }
    if line == b"silent".as_slice() {
        return put_boolean_member(writer, "silent", true);
    }
    if line == b"message false".as_slice() {
        return put_boolean_member(writer, "message", false);
    }
    if line == b"the setting is false".as_slice() {
        return put_text_member(writer, "setting", b"false");
    }
    if line == b"the setting is global, and the call doesn't name the module".as_slice() {
        return put_text_member(writer, "setting", b"global");
    }
    put_mark(writer, line)
}

/// Writes the line that a running node lacks or has, or the limit that a step goes past.
fn put_outside<A: Allocator>(writer: &mut Writer<A>, line: &[u8]) -> Result<(), AllocError>
    ensures { AddsTokens result writer.old writer.new (tokens_of_members (outside_members line.now)) }
{
    if line.starts_with(b"- ") {
        return put_text_member(writer, "node_lacks", without_front(line, 2));
    }
    if line.starts_with(b"+ ") {
        return put_text_member(writer, "node_has", without_front(line, 2));
    }
    if line.starts_with(b"past a limit: ") {
        return put_text_member(writer, "past_limit", without_front(line, 14));
    }
    put_cause(writer, line)
}

/// Writes what a session makes of an event or a command: its reply, the flag or the setting that isn't there, or any
/// other.
pub(crate) fn put_account_members<A: Allocator>(
    writer: &mut Writer<A>,
    line: &[u8],
) -> Result<(), AllocError>
    ensures { AddsTokens result writer.old writer.new (tokens_of_members (account_members line.now)) }
{
    if line.starts_with(b"replies ") {
        return put_reply(writer, without_front(line, 8));
    }
    if line.starts_with(b"no flag ") {
        return put_text_member(writer, "no_flag", without_front(line, 8));
    }
    if line.starts_with(b"no setting for ") {
        return put_text_member(writer, "no_setting", without_front(line, 15));
    }
    put_outside(writer, line)
}
