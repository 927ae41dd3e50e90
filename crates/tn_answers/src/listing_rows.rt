// Entries with their listings, as JSON.
ghost use Rattle.std.specs.Prelude.{◌≡◌, ◌++◌, ◌∷◌, ◌+◌, ◌<◌, IfOk, OnOk, Some, flat_map, length, map, slice_get};
ghost use Rattle.def_explore.specs.Answers.{RestEntry};
ghost use Rattle.def_explore.specs.Output.{kept_listings};
ghost use Rattle.def_explore.specs.Rests.{kept_by_process, kept_messages};
ghost use Rattle.def_formats.specs.JsonRows.{json_line, json_lines, message_row, numbered_rows};
ghost use Rattle.def_compare.specs.AnswerRows.{entries_rows, entry_rows, listed_rows, listing_row, sessions_rows};
ghost use Rattle.def_term.specs.Text.{w};
ghost use Rattle.tn_answers.specs.AnswerViews.{session_name_seen};
ghost use Rattle.tn_answers.specs.RowViews.{lent_message, lent_messages};
ghost use Rattle.tn_explore.specs.Searches.{answer_entries};
ghost use Rattle.tn_messages.specs.MessageViews.{kept_seen, lists_seen, message_tree, trees_seen};

use crate::entry::SessionName;
use crate::json_values::put_picks_member;
use crate::lines::Listing;
use std::alloc::{AllocError, Allocator};
use tn_explore::Answers;
use tn_formats::{
    JsonText, Names, begin_row, end_row, put_message_row, put_number_member, put_session_row,
};
use tn_messages::{KeptListings, MessageList, SharedMessage};
use tn_text::write_atom;

/// Appends the row of a listing.
fn put_listing_row<A: Allocator>(
    out: JsonText<A>,
    number: usize,
    count: usize,
    journal: &[u32],
) -> Result<JsonText<A>, AllocError>
    ensures { IfOk result (λ v. v.lines.items ≡ out.lines.items ++ json_line (listing_row number count journal.now)) }
{
    let JsonText { lines, row } = out;
    let mut writer = begin_row(row)?;
    put_number_member(&mut writer, "listing", number)?;
    put_number_member(&mut writer, "of", count)?;
    put_picks_member(&mut writer, "journal", journal)?;
    end_row(lines, writer)
}

/// Appends a row for each message of a session.
fn put_message_rows<A: Allocator, M: Allocator>(
    out: JsonText<A>,
    names: Names<'_>,
    messages: &[&SharedMessage<M>],
) -> Result<JsonText<A>, AllocError>
    ensures { let ms = map lent_message messages.now in IfOk result (λ v. v.lines.items ≡ out.lines.items ++ json_lines
        (numbered_rows (message_row names.entry.name.now names.entry.tracer.now) 1 (map w ms))) }
{
    let mut out = out;
    for number in 0..messages.len() {
        out = put_message_row(out, names, number + 1, messages[number].text())?;
    }
    Ok(out)
}

/// Appends the rows of a session and of its messages.
pub(crate) fn put_listed_rows<A: Allocator + Copy, N: Allocator, M: Allocator>(
    alloc: A,
    out: JsonText<A>,
    session: &SessionName<N>,
    messages: &[&SharedMessage<M>],
) -> Result<JsonText<A>, AllocError>
    ensures { let ms = map lent_message messages.now in IfOk result (λ v. v.lines.items ≡
        out.lines.items ++ json_lines (listed_rows (session_name_seen session.now) ms)) }
{
    let mut name = Vec::new(alloc);
    write_atom(&session.name, &mut name)?;
    let mut tracer = Vec::new(alloc);
    write_atom(&session.tracer, &mut tracer)?;
    let names = Names {
        name: &name,
        tracer: &tracer,
    };
    let out = put_session_row(out, names, messages.len())?;
    put_message_rows(out, names, messages)
}

/// Adds the messages of a list.
pub(crate) fn add_messages<'m, A: Allocator, M: Allocator>(
    messages: &'m [SharedMessage<M>],
    all: &mut Vec<&'m SharedMessage<M>, A>,
) -> Result<(), AllocError>
    ensures { OnOk result (lent_messages all.new ≡ lent_messages all.old ++ map message_tree messages.now) }
{
    for message in messages {
        all.push(message)?;
    }
    Ok(())
}

/// Adds those of each list.
pub(crate) fn add_lists<'m, A: Allocator, M: Allocator>(
    lists: &'m [MessageList<M>],
    all: &mut Vec<&'m SharedMessage<M>, A>,
) -> Result<(), AllocError>
    ensures { OnOk result (lent_messages all.new ≡
        lent_messages all.old ++ flat_map (λ v. trees_seen v) lists.now) }
{
    for messages in lists {
        add_messages(messages, all)?;
    }
    Ok(())
}

/// Appends the rows of each session and of its messages, for as many as there are both.
fn put_sessions_rows<A: Allocator + Copy, N: Allocator, L: Listing>(
    alloc: A,
    out: JsonText<A>,
    sessions: &[SessionName<N>],
    listings: &[L],
) -> Result<JsonText<A>, AllocError>
    ensures { let rows = sessions_rows (map session_name_seen sessions.now) (map L.listed listings.now) in
        IfOk result (λ v. v.lines.items ≡ out.lines.items ++ json_lines rows) }
{
    let mut out = out;
    for i in 0..sessions.len().min(listings.len()) {
        out = listings[i].put_rows(alloc, out, &sessions[i])?;
    }
    Ok(out)
}

/// Appends those with all messages of each session.
fn put_total_rows<A: Allocator + Copy, N: Allocator>(
    alloc: A,
    out: JsonText<A>,
    sessions: &[SessionName<N>],
    listings: &Vec<MessageList<A>, A>,
) -> Result<JsonText<A>, AllocError>
    ensures { let all = kept_messages (map trees_seen listings.now.items) in IfOk result (λ v. v.lines.items ≡
        out.lines.items ++ json_lines (sessions_rows (map session_name_seen sessions.now) (kept_listings all))) }
{
    put_sessions_rows(alloc, out, sessions, listings)
}

/// Appends those with the messages of each process.
fn put_process_rows<A: Allocator + Copy, N: Allocator>(
    alloc: A,
    out: JsonText<A>,
    sessions: &[SessionName<N>],
    listings: &Vec<Vec<MessageList<A>, A>, A>,
) -> Result<JsonText<A>, AllocError>
    ensures { let all = kept_by_process (map lists_seen listings.now.items) in IfOk result (λ v. v.lines.items ≡
        out.lines.items ++ json_lines (sessions_rows (map session_name_seen sessions.now) (kept_listings all))) }
{
    put_sessions_rows(alloc, out, sessions, listings)
}

/// Appends those with what is kept.
fn put_kept_rows<A: Allocator + Copy, N: Allocator>(
    alloc: A,
    out: JsonText<A>,
    sessions: &[SessionName<N>],
    kept: &KeptListings<A>,
) -> Result<JsonText<A>, AllocError>
    ensures { let ss = map session_name_seen sessions.now in IfOk result (λ v. v.lines.items ≡
        out.lines.items ++ json_lines (sessions_rows ss (kept_listings (kept_seen kept.now)))) }
{
    match kept {
        KeptListings::Total(listings) => put_total_rows(alloc, out, sessions, listings),
        KeptListings::ByProcess(listings) => put_process_rows(alloc, out, sessions, listings),
    }
}

/// Appends those of the entry at a place of so many.
fn put_entry_rows<A: Allocator + Copy, N: Allocator>(
    alloc: A,
    out: JsonText<A>,
    sessions: &[SessionName<N>],
    answers: &Answers<A, KeptListings<A>>,
    place: (usize, usize),
) -> Result<JsonText<A>, AllocError>
    requires { place.0 < place.1 }
    ensures { let ss = map session_name_seen sessions.now in let es = answer_entries kept_seen answers.now.entries in
        IfOk result (λ v. (e : RestEntry) → slice_get es place.0 ≡ Some e →
        v.lines.items ≡ out.lines.items ++ json_lines (entry_rows ss place.1 (place.0 + 1) e)) }
{
    let Some((kept, journal)) = answers.get_index(place.0) else {
        return Ok(out);
    };
    let out = put_listing_row(out, place.0 + 1, place.1, journal)?;
    put_kept_rows(alloc, out, sessions, kept)
}

/// Appends those of the entries, each with its number.
pub(crate) fn put_entries_rows<A: Allocator + Copy, N: Allocator>(
    alloc: A,
    out: JsonText<A>,
    sessions: &[SessionName<N>],
    answers: &Answers<A, KeptListings<A>>,
) -> Result<JsonText<A>, AllocError>
    ensures { let ss = map session_name_seen sessions.now in let es = answer_entries kept_seen answers.now.entries in
        IfOk result (λ v. v.lines.items ≡ out.lines.items ++ json_lines (entries_rows ss (length es) 1 es)) }
{
    let count = answers.len();
    let mut out = out;
    for number in 0..count {
        out = put_entry_rows(alloc, out, sessions, answers, (number, count))?;
    }
    Ok(out)
}
