// An entry with its listings.
ghost use Rattle.std.specs.Prelude.{◌≡◌, ◌++◌, ◌∷◌, ◌+◌, ◌<◌, OnOk, Some, map, decimal, slice_get, true};
ghost use Rattle.def_run.specs.Listing.{header_line};
ghost use Rattle.def_explore.specs.Rests.{kept_messages, kept_by_process};
ghost use Rattle.def_explore.specs.Answers.{RestEntry};
ghost use Rattle.def_explore.specs.Output.{entry_line, kept_listings, session_texts, spaced_picks};
ghost use Rattle.def_compare.specs.AnswerSummaries.{entry_text_in, listings_in};
ghost use Rattle.tn_explore.specs.Searches.{answer_entries};
ghost use Rattle.tn_messages.specs.MessageViews.{kept_seen, trees_seen, lists_seen};
ghost use Rattle.tn_answers.specs.AnswerViews.{session_name_seen};

use crate::lines::Listing;
use std::alloc::{AllocError, Allocator};
use tn_explore::Answers;
use tn_formats::{Format, in_format};
use tn_messages::{KeptListings, MessageList};
use tn_term::Atom;
use tn_text::{write_atom, write_decimal};

/// A session that an exploration is about, with its tracer.
#[derive(Drop)]
pub struct SessionName<A: Allocator> {
    pub name: Atom<A>,
    pub tracer: Atom<A>,
}

/// Appends a space and the number of a pick.
fn put_pick<B: Allocator>(pick: u32, out: &mut Vec<u8, B>) -> Result<(), AllocError>
    ensures { OnOk result (out.new.items ≡ out.old.items ++ 32 ∷ decimal pick) }
{
    out.push(b' ')?;
    write_decimal(pick, out)?;
    Ok(())
}

/// Appends a space and a number for each pick.
pub(crate) fn put_picks<B: Allocator>(picks: &[u32], out: &mut Vec<u8, B>) -> Result<(), AllocError>
    ensures { OnOk result (out.new.items ≡ out.old.items ++ spaced_picks picks.now) }
{
    for pick in picks {
        put_pick(*pick, out)?;
    }
    Ok(())
}

/// Appends the line `== listing N of M: journal PICKS`.
fn put_entry_line<B: Allocator>(
    number: usize,
    count: usize,
    journal: &[u32],
    out: &mut Vec<u8, B>,
) -> Result<(), AllocError>
    ensures { OnOk result (out.new.items ≡ out.old.items ++ entry_line number count journal.now) }
{
    out.extend_from_slice(b"== listing ")?;
    write_decimal(number, out)?;
    out.extend_from_slice(b" of ")?;
    write_decimal(count, out)?;
    out.extend_from_slice(b": journal")?;
    put_picks(journal, out)?;
    out.push(b'\n')?;
    Ok(())
}

/// Appends the line `== session NAME tracer TRACER`.
pub(crate) fn put_header<A: Allocator, B: Allocator>(
    session: &SessionName<A>,
    out: &mut Vec<u8, B>,
) -> Result<(), AllocError>
    ensures { OnOk result (out.new.items ≡ out.old.items ++ header_line session.now.name session.now.tracer) }
{
    out.extend_from_slice(b"== session ")?;
    write_atom(&session.name, out)?;
    out.extend_from_slice(b" tracer ")?;
    write_atom(&session.tracer, out)?;
    out.push(b'\n')?;
    Ok(())
}

/// Appends the header of each session and its listing, for as many as there are both.
fn put_sessions<A: Allocator, L: Listing, B: Allocator>(
    sessions: &[SessionName<A>],
    listings: &[L],
    out: &mut Vec<u8, B>,
) -> Result<(), AllocError>
    ensures { OnOk result (out.new.items ≡ out.old.items ++
        session_texts (map session_name_seen sessions.now) (map L.listed listings.now)) }
{
    for i in 0..sessions.len().min(listings.len()) {
        put_header(&sessions[i], out)?;
        listings[i].put_lines(out)?;
    }
    Ok(())
}

/// Appends the header of each session and all of its messages.
fn put_total<A: Allocator, B: Allocator>(
    sessions: &[SessionName<A>],
    listings: &Vec<MessageList<A>, A>,
    out: &mut Vec<u8, B>,
) -> Result<(), AllocError>
    ensures { let all = kept_messages (map trees_seen listings.now.items) in OnOk result (out.new.items ≡
        out.old.items ++ session_texts (map session_name_seen sessions.now) (kept_listings all)) }
{
    put_sessions(sessions, listings, out)
}

/// Appends the header of each session and the messages of each process.
fn put_by_process<A: Allocator, B: Allocator>(
    sessions: &[SessionName<A>],
    listings: &Vec<Vec<MessageList<A>, A>, A>,
    out: &mut Vec<u8, B>,
) -> Result<(), AllocError>
    ensures { let all = kept_by_process (map lists_seen listings.now.items) in OnOk result (out.new.items ≡
        out.old.items ++ session_texts (map session_name_seen sessions.now) (kept_listings all)) }
{
    put_sessions(sessions, listings, out)
}

/// Appends the header of each session and what is kept of its messages.
fn put_kept<A: Allocator, B: Allocator>(
    sessions: &[SessionName<A>],
    kept: &KeptListings<A>,
    out: &mut Vec<u8, B>,
) -> Result<(), AllocError>
    ensures { OnOk result (out.new.items ≡ out.old.items ++
        session_texts (map session_name_seen sessions.now) (kept_listings (kept_seen kept.now))) }
{
    match kept {
        KeptListings::Total(listings) => put_total(sessions, listings, out),
        KeptListings::ByProcess(listings) => put_by_process(sessions, listings, out),
    }
}

/// Appends the summary of what is kept, as that of an output.
fn put_summary<A: Allocator + Copy, B: Allocator>(
    alloc: A,
    sessions: &[SessionName<A>],
    kept: &KeptListings<A>,
    out: &mut Vec<u8, B>,
) -> Result<(), AllocError>
    ensures { let ss = map session_name_seen sessions.now in
        OnOk result (out.new.items ≡ out.old.items ++ listings_in true ss (kept_listings (kept_seen kept.now))) }
{
    let mut listings = Vec::new(alloc);
    put_kept(sessions, kept, &mut listings)?;
    let summary = in_format(alloc, Format::Summary, &listings)?;
    out.extend_from_slice(&summary)?;
    Ok(())
}

/// Appends what is kept, or its summary.
fn put_listings<A: Allocator + Copy, B: Allocator>(
    alloc: A,
    sessions: &[SessionName<A>],
    kept: &KeptListings<A>,
    is_summary: bool,
    out: &mut Vec<u8, B>,
) -> Result<(), AllocError>
    ensures { let ss = map session_name_seen sessions.now in OnOk result
        (out.new.items ≡ out.old.items ++ listings_in is_summary ss (kept_listings (kept_seen kept.now))) }
{
    if is_summary {
        put_summary(alloc, sessions, kept, out)
    } else {
        put_kept(sessions, kept, out)
    }
}

/// Appends the entry at a place of so many.
pub(crate) fn put_entry_at<A: Allocator + Copy, B: Allocator>(
    alloc: A,
    sessions: &[SessionName<A>],
    answers: &Answers<A, KeptListings<A>>,
    place: (usize, usize),
    is_summary: bool,
    out: &mut Vec<u8, B>,
) -> Result<(), AllocError>
    requires { place.0 < place.1 }
    ensures { let ss = map session_name_seen sessions.now in let es = answer_entries kept_seen answers.now.entries in
        OnOk result ((e : RestEntry) → slice_get es place.0 ≡ Some e →
        out.new.items ≡ out.old.items ++ entry_text_in is_summary ss place.1 (place.0 + 1) e) }
{
    let Some((kept, journal)) = answers.get_index(place.0) else {
        return Ok(());
    };
    put_entry_line(place.0 + 1, place.1, journal, out)?;
    put_listings(alloc, sessions, kept, is_summary, out)
}
