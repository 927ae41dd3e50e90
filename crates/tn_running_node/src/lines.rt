// The lines of a session here and on a running node, and what is between them.
ghost use Rattle.std.specs.Prelude.{◌≡◌, ◌||◌, false, ◌++◌, ◌∷◌, [], IfOk, OnOk, map, flat_map, drop, slice_get};
ghost use Rattle.std.specs.Prelude.{option_to_list};
ghost use Rattle.std.specs.Option.{is_some, option_map};
ghost use Rattle.def_term.specs.Text.{w};
ghost use Rattle.def_running_node.specs.NodeRuns.{lines_by_openness};
ghost use Rattle.def_running_node.specs.NodeComparisons.{reply_texts, texts};
ghost use Rattle.tn_term.specs.Views.{tree_of};
ghost use Rattle.tn_session.specs.Messages.{message_seen};
ghost use Rattle.tn_text.specs.Writes.{Grows};
ghost use Rattle.tn_running_node.specs.Views.{lines_seen};
ghost use Rattle.tn_running_node.specs.Lines.{is_line, common_from, named_text, PutsBothLines};
ghost use Rattle.tn_running_node.specs.SameMessages.{HasSameBetween};

use std::alloc::{AllocError, Allocator};
use tn_session::Message;
use tn_term::{Atom, Term};
use tn_text::{write_atom, write_term};

/// The lines of some messages, or of a reply.
pub type TextLines<A> = Vec<Vec<u8, A>, A>;

/// What is said where what a node reports isn't determined any more.
const OPEN: &[u8] = b"on a node: the messages aren't determined from here on";

/// Whether lines of a session differ on a node, and whether they aren't determined.
#[derive(Clone, Copy, Debug, PartialEq, Eq, Drop)]
pub struct LineKinds {
    pub differs: bool,
    pub is_open: bool,
}

impl LineKinds {
    /// Of no lines.
    pub fn none() -> LineKinds
        ensures differs { result.differs ≡ false }
        ensures open_lines { result.is_open ≡ false }
    {
        LineKinds {
            differs: false,
            is_open: false,
        }
    }

    /// Of both together.
    pub fn join(self, other: LineKinds) -> LineKinds
        ensures differs { result.differs ≡ (self.differs || other.differs) }
        ensures open_lines { result.is_open ≡ (self.is_open || other.is_open) }
    {
        LineKinds {
            differs: self.differs | other.differs,
            is_open: self.is_open | other.is_open,
        }
    }
}

/// Appends the line of a message. An error is refused memory.
pub fn push_message<A: Allocator + Copy>(
    alloc: A,
    message: &Message<'_, A>,
    lines: &mut TextLines<A>,
) -> Result<(), AllocError>
    ensures { OnOk result (lines_seen lines.new ≡ lines_seen lines.old ++ w (message_seen message.now) ∷ []) }
{
    let mut line = Vec::new(alloc);
    message.append_text(&mut line)?;
    lines.push(line)?;
    Ok(())
}

/// The lines of a message, where there is one. An error is refused memory.
fn lines_of_message<A: Allocator + Copy>(
    alloc: A,
    message: &Option<Message<'_, A>>,
) -> Result<TextLines<A>, AllocError>
    ensures { IfOk result (λ v. lines_seen v ≡ texts (option_to_list (option_map message_seen message.now))) }
{
    let mut lines = Vec::new(alloc);
    if let Some(message) = message {
        push_message(alloc, message, &mut lines)?;
    }
    Ok(lines)
}

/// The lines of the message that a session here reports, and those of one of a node; none of both where the node
/// reports the same message, so that no text is made of it. An error is refused memory.
pub fn both_lines<A: Allocator + Copy>(
    alloc: A,
    message: &Option<Message<'_, A>>,
    there: Option<TextLines<A>>,
) -> Result<(TextLines<A>, TextLines<A>), AllocError>
    ensures { IfOk result (λ both. HasSameBetween message.now there both.0 both.1) }
{
    match there {
        Some(lines) => Ok((lines_of_message(alloc, message)?, lines)),
        None => Ok((Vec::new(alloc), Vec::new(alloc))),
    }
}

/// The lines of a reply: one. An error is refused memory.
pub fn lines_of_reply<A: Allocator + Copy>(
    alloc: A,
    reply: &Term<A>,
) -> Result<TextLines<A>, AllocError>
    ensures { IfOk result (λ v. lines_seen v ≡ reply_texts (tree_of reply.now)) }
{
    let mut line = Vec::new(alloc);
    line.extend_from_slice(b"replies ")?;
    write_term(reply, &mut line)?;
    let mut lines = Vec::new(alloc);
    lines.push(line)?;
    Ok(lines)
}

/// Whether the line is the one at a place.
fn is_line_at<A: Allocator>(lines: &TextLines<A>, place: usize, line: &[u8]) -> bool
    ensures { result ≡ is_line (slice_get (lines_seen lines.now) place) line.now }
{
    match lines.get(place) {
        Some(found) => line == found.as_slice(),
        None => false,
    }
}

/// How many lines both have at the beginning.
fn common_count<A: Allocator>(here: &TextLines<A>, there: &TextLines<A>) -> usize
    ensures { result ≡ common_from 0 (lines_seen here.now) (lines_seen there.now) }
{
    for place in 0..here.len() {
        if !is_line_at(there, place, &here[place]) {
            return place;
        }
    }
    here.len()
}

/// Whether there is a line from a place on.
fn has_from<A: Allocator>(lines: &TextLines<A>, from: usize) -> bool
    ensures { result ≡ is_some (slice_get (lines_seen lines.now) from) }
{
    lines.get(from).is_some()
}

/// Appends a line after the name of its session and a mark.
fn put_line<A: Allocator, B: Allocator>(
    name: &Atom<A>,
    mark: &[u8],
    line: &[u8],
    out: &mut Vec<u8, B>,
) -> Result<(), AllocError>
    ensures ok { OnOk result (out.new.items ≡ out.old.items ++ named_text name.now mark.now line.now) }
    ensures grows { Grows out.old.items out.new.items }
{
    out.extend_from_slice(b"  ")?;
    write_atom(name, out)?;
    out.extend_from_slice(b": ")?;
    out.extend_from_slice(mark)?;
    out.extend_from_slice(line)?;
    out.push(b'\n')?;
    Ok(())
}

/// Appends the lines from a place on, each after the name of the session and a mark.
fn put_from<A: Allocator, B: Allocator>(
    name: &Atom<A>,
    mark: &[u8],
    lines: &TextLines<B>,
    from: usize,
    out: &mut Vec<u8, B>,
) -> Result<(), AllocError>
    ensures ok { OnOk result (out.new.items ≡
        out.old.items ++ flat_map (named_text name.now mark.now) (drop from (lines_seen lines.now))) }
    ensures grows { Grows out.old.items out.new.items }
{
    for place in from..lines.len() {
        put_line(name, mark, &lines[place], out)?;
    }
    Ok(())
}

/// Appends the lines of a session that a node doesn't have, and those that it has in their place, where what it
/// reports was determined and is; and that it isn't any more, where it was. After an `Err` a part of it may stand
/// there.
pub fn put_lines<A: Allocator, B: Allocator>(
    name: &Atom<A>,
    was_determined: bool,
    is_determined: bool,
    here: &TextLines<B>,
    there: &TextLines<B>,
    out: &mut Vec<u8, B>,
) -> Result<LineKinds, AllocError>
    ensures ok { IfOk result (PutsBothLines name.now
        (lines_by_openness was_determined is_determined (lines_seen here.now) (lines_seen there.now)) out.old out.new) }
    ensures grows { Grows out.old.items out.new.items }
{
    let mut kinds = LineKinds::none();
    if !was_determined {
        return Ok(kinds);
    }
    if !is_determined {
        kinds.is_open = true;
        put_line(name, OPEN, b"", out)?;
        return Ok(kinds);
    }
    let same = common_count(here, there);
    put_from(name, b"- ", here, same, out)?;
    put_from(name, b"+ ", there, same, out)?;
    let lacks = has_from(here, same);
    let adds = has_from(there, same);
    kinds.differs = lacks | adds;
    Ok(kinds)
}
