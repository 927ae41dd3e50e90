// The summary of an output.
ghost use Rattle.std.specs.Prelude.{◌≡◌, ◌++◌, ◌∷◌, [], OnOk, IfOk, length, codes, decimal};
ghost use Rattle.def_formats.specs.Sections.{by_sections, section_lines, section_of};
ghost use Rattle.def_formats.specs.Lines.{text_lines};
ghost use Rattle.def_formats.specs.Summaries.{load_line, kind_line, kind_lines, longest_line, session_summary};
ghost use Rattle.def_formats.specs.Summaries.{kinds_of_signals, kinds_of_calls, kinds_of_processes, kinds_of_links};
ghost use Rattle.def_formats.specs.Summaries.{section_summary, summary_of};
ghost use Rattle.tn_formats.specs.Values.{load_seen, line_seen, section_seen};

use crate::atom::{Section, section_of};
use crate::lines::first_line;
use crate::load::{Load, load_of};
use crate::longest::{NumberedLine, longest};
use crate::picks::journal_length;
use crate::section::{is_section_head, line_count};
use std::alloc::{AllocError, Allocator};
use tn_text::write_decimal;

/// Appends the line of a load.
fn put_load<A: Allocator>(label: &[u8], load: Load, out: &mut Vec<u8, A>) -> Result<(), AllocError>
    ensures { OnOk result (out.new.items ≡ out.old.items ++ load_line label.now (load_seen load)) }
{
    out.extend_from_slice(label)?;
    out.extend_from_slice(b": messages ")?;
    write_decimal(load.messages, out)?;
    out.extend_from_slice(b", bytes ")?;
    write_decimal(load.bytes, out)?;
    out.push(b'\n')?;
    Ok(())
}

/// Appends the line of the messages of a kind, where the section has one.
fn put_kind<A: Allocator>(text: &[u8], kind: &[u8], out: &mut Vec<u8, A>) -> Result<(), AllocError>
    ensures { OnOk result (out.new.items ≡ out.old.items ++ kind_line (section_lines text.now) kind.now) }
{
    let load = load_of(text, Some(kind));
    if load.messages == 0 {
        return Ok(());
    }
    put_load(kind, load, out)
}

/// Appends the lines of messages that are sent and that arrive.
fn put_signals<A: Allocator>(text: &[u8], out: &mut Vec<u8, A>) -> Result<(), AllocError>
    ensures { OnOk result (out.new.items ≡ out.old.items ++ kind_lines kinds_of_signals (section_lines text.now)) }
{
    put_kind(text, b"send", out)?;
    put_kind(text, b"send_to_non_existing_process", out)?;
    put_kind(text, b"'receive'", out)
}

/// Appends the lines of calls.
fn put_calls<A: Allocator>(text: &[u8], out: &mut Vec<u8, A>) -> Result<(), AllocError>
    ensures { OnOk result (out.new.items ≡ out.old.items ++ kind_lines kinds_of_calls (section_lines text.now)) }
{
    put_kind(text, b"call", out)?;
    put_kind(text, b"return_from", out)?;
    put_kind(text, b"exception_from", out)?;
    Ok(())
}

/// Appends the lines of processes.
fn put_processes<A: Allocator>(text: &[u8], out: &mut Vec<u8, A>) -> Result<(), AllocError>
    ensures { OnOk result (out.new.items ≡ out.old.items ++ kind_lines kinds_of_processes (section_lines text.now)) }
{
    put_kind(text, b"spawn", out)?;
    put_kind(text, b"spawned", out)?;
    put_kind(text, b"exit", out)
}

/// Appends the lines of links.
fn put_links<A: Allocator>(text: &[u8], out: &mut Vec<u8, A>) -> Result<(), AllocError>
    ensures { OnOk result (out.new.items ≡ out.old.items ++ kind_lines kinds_of_links (section_lines text.now)) }
{
    put_kind(text, b"link", out)?;
    put_kind(text, b"unlink", out)?;
    put_kind(text, b"getting_linked", out)?;
    put_kind(text, b"getting_unlinked", out)
}

/// Appends the line of the greatest message, where there is one.
fn put_longest<A: Allocator>(
    longest: NumberedLine<'_>,
    out: &mut Vec<u8, A>,
) -> Result<(), AllocError>
    ensures { OnOk result (out.new.items ≡ out.old.items ++ longest_line (line_seen longest.entry)) }
{
    let NumberedLine { number, line } = longest;
    if number == 0 {
        return Ok(());
    }
    out.extend_from_slice(b"greatest: bytes ")?;
    write_decimal(line.len(), out)?;
    out.extend_from_slice(b", line ")?;
    write_decimal(number, out)?;
    out.extend_from_slice(b", ")?;
    out.extend_from_slice(line)?;
    out.push(b'\n')?;
    Ok(())
}

/// Appends the lines of a session's messages.
fn put_session<A: Allocator>(text: &[u8], out: &mut Vec<u8, A>) -> Result<(), AllocError>
    ensures { OnOk result (out.new.items ≡ out.old.items ++ session_summary (section_lines text.now)) }
{
    put_signals(text, out)?;
    put_calls(text, out)?;
    put_processes(text, out)?;
    put_links(text, out)?;
    put_load(b"total", load_of(text, None), out)?;
    put_longest(longest(text), out)?;
    Ok(())
}

/// Appends the number of commands, after a line for the run.
fn put_replies<A: Allocator>(text: &[u8], out: &mut Vec<u8, A>) -> Result<(), AllocError>
    ensures { OnOk result (out.new.items ≡ out.old.items
        ++ codes "== run\ncommands: " ++ decimal (length (section_lines text.now)) ++ 10 ∷ []) }
{
    out.extend_from_slice(b"== run\ncommands: ")?;
    write_decimal(line_count(text), out)?;
    out.push(b'\n')?;
    Ok(())
}

/// Appends what a section comes to, of its first line and the text after it.
fn put_section<A: Allocator>(
    head: &[u8],
    text: &[u8],
    out: &mut Vec<u8, A>,
) -> Result<(), AllocError>
    ensures { OnOk result (out.new.items ≡ out.old.items ++ section_summary head.now (section_lines text.now)) }
{
    match section_of(head) {
        Section::Session { .. } => {
            out.extend_from_slice(head)?;
            out.push(b'\n')?;
            put_session(text, out)
        }
        Section::Replies => put_replies(text, out),
        Section::Journal => {
            out.extend_from_slice(b"moves: ")?;
            write_decimal(journal_length(text), out)?;
            out.push(b'\n')?;
            Ok(())
        }
    }
}

/// The summary of an output: of each session the messages and their bytes by kind, in total, and the greatest
/// message; the number of commands and the number of moves.
///
/// # Errors
///
/// AllocError where memory was refused.
pub(crate) fn summary_of<A: Allocator>(alloc: A, output: &[u8]) -> Result<Vec<u8, A>, AllocError>
    ensures { IfOk result (λ v. v.items ≡ summary_of output.now) }
{
    let mut out = Vec::new(alloc);
    let mut rest = output;
    while !rest.is_empty() {
        let (line, after) = first_line(rest);
        if is_section_head(line) {
            put_section(line, after, &mut out)?;
        }
        rest = after;
    }
    Ok(out)
}
