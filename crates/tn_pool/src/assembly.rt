// The output of a closed journal, with lines that lie ready on a board.
ghost use Rattle.std.specs.Prelude.{◌≡◌, IfOk, map};
ghost use Rattle.def_run.specs.Run.{moves};
ghost use Rattle.def_run.specs.Listing.{line_of, lines_of, program_output};
ghost use Rattle.tn_text.specs.WrittenTrees.{written_tree};
ghost use Rattle.tn_listing.specs.Outputs.{AddsText, listing_numbered, all_listings};
ghost use Rattle.tn_live.specs.Journal.{picks_of};

use crate::board::Board;
use std::alloc::{AllocError, Allocator};
use tn_listing::{Line, lines_text, listing_text, write_picks};
use tn_live::{Closed, JournalName};
use tn_text::WrittenTerm;

/// The output of a closed journal.
#[derive(Drop)]
pub struct JournalOutput<A: Allocator> {
    /// Each session's listing, the replies and the journal.
    pub text: Vec<u8, A>,
    /// The picks of the journal, each of which moved.
    pub picks: Vec<u32, A>,
    /// How many lines came from the board.
    pub taken: u64,
}

/// The picks of a closed journal, each of which moved.
fn journal_picks<A: Allocator + Copy, B: Allocator, J: JournalName>(
    alloc: B,
    closed: &Closed<A, J>,
) -> Result<Vec<u32, B>, AllocError>
    ensures picks { IfOk result (λ v. v.items ≡ picks_of closed.now) }
    ensures moved { IfOk result (λ v. moves J.program v.items ≡ v.items) }
{
    let mut picks = Vec::new(alloc);
    for entry in closed.journal() {
        picks.push(entry.pick)?;
    }
    Ok(picks)
}

/// Appends the text of a message with a line feed: that of the line, where it is of the same message.
/// Whether it was.
fn append_line<A: Allocator, B: Allocator>(
    text: &mut Vec<u8, B>,
    line: Option<&Line<A>>,
    message: &WrittenTerm<A>,
) -> Result<bool, AllocError>
    ensures { IfOk result (λ _. AddsText (line_of (written_tree message.now)) text.old text.new) }
{
    if let Some(line) = line {
        if line.item().message.term().same(message.term()) {
            text.extend_from_slice(line.text())?;
            return Ok(true);
        }
    }
    text.extend_from_slice(message.text())?;
    text.push(b'\n')?;
    Ok(false)
}

/// Appends the lines of a session's messages. How many came from the board.
fn append_lines<A: Allocator, B: Allocator>(
    text: &mut Vec<u8, B>,
    board: &Board<A>,
    session: u32,
    messages: &[WrittenTerm<A>],
) -> Result<u64, AllocError>
    ensures { IfOk result (λ _. AddsText (lines_of (map written_tree messages.now)) text.old text.new) }
{
    let mut taken = 0u64;
    for (index, message) in messages.iter().enumerate() {
        let line = board.line(session, index as u64);
        if append_line(text, line, message)? {
            taken = taken.saturating_add(1);
        }
    }
    Ok(taken)
}

/// Appends the header and the messages of the session with this number, from 0. How many lines came from
/// the board.
fn append_listing<A: Allocator + Copy, B: Allocator, J: JournalName>(
    text: &mut Vec<u8, B>,
    closed: &Closed<A, J>,
    board: &Board<A>,
    number: usize,
) -> Result<u64, AllocError>
    ensures { IfOk result (λ _. AddsText (listing_numbered J.program (picks_of closed.now) number) text.old text.new) }
{
    let Some((name, tracer)) = closed.program().session_at(number) else {
        return Ok(0);
    };
    let Ok(session) = u32::try_from(number) else {
        return Err(AllocError);
    };
    let Some(session) = session.checked_add(1) else {
        return Err(AllocError);
    };
    let Some(messages) = closed.listing(session) else {
        return Ok(0);
    };
    listing_text(name, tracer, &messages[..0], text)?;
    append_lines(text, board, session, messages)
}

/// Appends each session's header and messages. How many lines came from the board.
fn append_listings<A: Allocator + Copy, B: Allocator, J: JournalName>(
    text: &mut Vec<u8, B>,
    closed: &Closed<A, J>,
    board: &Board<A>,
) -> Result<u64, AllocError>
    ensures { IfOk result (λ _. AddsText (all_listings J.program (picks_of closed.now)) text.old text.new) }
{
    let mut taken = 0u64;
    for number in 0..closed.program().session_count() {
        let lines = append_listing(text, closed, board, number)?;
        taken = taken.saturating_add(lines);
    }
    Ok(taken)
}

/// How many bytes the lines of these messages have.
fn lines_bytes<A: Allocator>(messages: &[WrittenTerm<A>]) -> usize {
    let mut bytes = 0usize;
    for message in messages {
        bytes = bytes.saturating_add(message.text().len()).saturating_add(1);
    }
    bytes
}

/// How many bytes the lines of all sessions have together.
fn listings_bytes<A: Allocator + Copy, J: JournalName>(closed: &Closed<A, J>) -> usize {
    let mut bytes = 0usize;
    let mut session = 0u32;
    for _ in 0..closed.program().session_count() {
        session = session.saturating_add(1);
        if let Some(messages) = closed.listing(session) {
            bytes = bytes.saturating_add(lines_bytes(messages));
        }
    }
    bytes
}

/// The output of a closed journal, whatever the board holds: a line of the board is taken where it is of
/// the message that stands at its index of its session's listing, and else the text beside the message.
///
/// # Errors
///
/// AllocError where memory was refused.
pub fn assemble<A: Allocator + Copy, B: Allocator + Copy, J: JournalName>(
    alloc: B,
    closed: &Closed<A, J>,
    board: &Board<A>,
) -> Result<JournalOutput<B>, AllocError>
    ensures text { IfOk result (λ a. a.text.items ≡ program_output J.program (picks_of closed.now)) }
    ensures picks { IfOk result (λ a. a.picks.items ≡ picks_of closed.now) }
    ensures moved { IfOk result (λ a. moves J.program a.picks.items ≡ a.picks.items) }
{
    let picks = journal_picks(alloc, closed)?;
    let mut text = Vec::with_capacity(alloc, listings_bytes(closed))?;
    let taken = append_listings(&mut text, closed, board)?;
    text.extend_from_slice(b"== replies\n")?;
    lines_text(closed.replies(), &mut text)?;
    text.extend_from_slice(b"== journal\n")?;
    write_picks(&picks, &mut text)?;
    text.push(b'\n')?;
    Ok(JournalOutput { text, picks, taken })
}
