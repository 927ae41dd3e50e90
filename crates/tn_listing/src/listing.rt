// The text of a listing.
ghost use Rattle.std.specs.Prelude.{◌≡◌, ◌++◌, OnOk, OnErr, map};
ghost use Rattle.def_run.specs.Listing as definition;
ghost use Rattle.tn_text.specs.WrittenTrees.{written_tree};
ghost use Rattle.tn_text.specs.Writes.{Grows};
ghost use Rattle.tn_listing.specs.Listings.{listing_of};

use crate::undo::or_as_it_was;
use std::alloc::{AllocError, Allocator};
use tn_term::Atom;
use tn_text::{WrittenTerm, write_atom};

/// Appends the line `== session NAME tracer TRACER`; after an `Err` a part of it may stand there.
pub(crate) fn put_header<A: Allocator, B: Allocator>(
    name: &Atom<A>,
    tracer: &Atom<A>,
    out: &mut Vec<u8, B>,
) -> Result<(), AllocError>
    ensures ok { OnOk result (out.new.items ≡ out.old.items ++ definition.header_line name.now tracer.now) }
    ensures grows { Grows out.old.items out.new.items }
{
    out.extend_from_slice(b"== session ")?;
    write_atom(name, out)?;
    out.extend_from_slice(b" tracer ")?;
    write_atom(tracer, out)?;
    out.push(b'\n')?;
    Ok(())
}

/// Appends the text of a message with a line feed; after an `Err` a part of it may stand there.
fn put_line<A: Allocator, B: Allocator>(
    message: &WrittenTerm<A>,
    out: &mut Vec<u8, B>,
) -> Result<(), AllocError>
    ensures ok { OnOk result (out.new.items ≡ out.old.items ++ definition.line_of (written_tree message.now)) }
    ensures grows { Grows out.old.items out.new.items }
{
    out.extend_from_slice(message.text())?;
    out.push(b'\n')?;
    Ok(())
}

/// Appends the text of each message with a line feed; after an `Err` a part of it may stand there.
fn put_lines<A: Allocator, B: Allocator>(
    messages: &[WrittenTerm<A>],
    out: &mut Vec<u8, B>,
) -> Result<(), AllocError>
    ensures ok { OnOk result (out.new.items ≡ out.old.items ++ definition.lines_of (map written_tree messages.now)) }
    ensures grows { Grows out.old.items out.new.items }
{
    for message in messages {
        put_line(message, out)?;
    }
    Ok(())
}

/// Appends the text of each term, each with a line feed.
///
/// # Errors
///
/// AllocError where memory was refused: the vector is as it was.
pub fn lines_text<A: Allocator, B: Allocator>(
    terms: &[WrittenTerm<A>],
    out: &mut Vec<u8, B>,
) -> Result<(), AllocError>
    ensures ok { OnOk result (out.new.items ≡ out.old.items ++ definition.lines_of (map written_tree terms.now)) }
    ensures err { OnErr result (out.new.items ≡ out.old.items) }
{
    let len = out.len();
    let done = put_lines(terms, out);
    or_as_it_was(out, len, done)
}

/// Appends the header of a session and its messages; after an `Err` a part of them may stand there.
fn put_listing<A: Allocator, B: Allocator>(
    name: &Atom<A>,
    tracer: &Atom<A>,
    messages: &[WrittenTerm<A>],
    out: &mut Vec<u8, B>,
) -> Result<(), AllocError>
    ensures ok { OnOk result (out.new.items ≡ out.old.items ++ listing_of name.now tracer.now messages.now) }
    ensures grows { Grows out.old.items out.new.items }
{
    put_header(name, tracer, out)?;
    put_lines(messages, out)
}

/// Appends the line `== session NAME tracer TRACER` and the text of each message, each with a line feed.
///
/// # Errors
///
/// AllocError where memory was refused: the vector is as it was.
pub fn listing_text<A: Allocator, B: Allocator>(
    name: &Atom<A>,
    tracer: &Atom<A>,
    messages: &[WrittenTerm<A>],
    out: &mut Vec<u8, B>,
) -> Result<(), AllocError>
    ensures ok { OnOk result (out.new.items ≡ out.old.items ++ listing_of name.now tracer.now messages.now) }
    ensures err { OnErr result (out.new.items ≡ out.old.items) }
{
    let len = out.len();
    let done = put_listing(name, tracer, messages, out);
    or_as_it_was(out, len, done)
}
