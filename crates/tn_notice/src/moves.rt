// The line of a text of moves that is refused.
ghost use Rattle.std.specs.Prelude.{◌≡◌, ◌+◌, ◌++◌, codes, decimal, drop, map, if◌then◌else◌, OnOk, OnErr};
ghost use Rattle.def_term.specs.Alive.{FIRST_PID};
ghost use Rattle.def_term.specs.Text.{atom_text, pid_text};
ghost use Rattle.def_notice.specs.MovesTexts.{bad_moves_text, moves_reason_text, pids_text, plain_bytes, plain_byte};
ghost use Rattle.def_notice.specs.MovesTexts.{starts_text, one_start_text, instead_text, begins_with_star};
ghost use Rattle.def_notice.specs.MovesTexts.{amount_text, has_mark, marks_hint_text, mover_hint_text};
ghost use Rattle.tn_text.specs.Writes.{Grows};
ghost use Rattle.tn_notice.specs.MovesViews.{bad_moves_seen, entry_name, moves_reason_seen};

use std::alloc::{AllocError, Allocator};
use tn_script::Entry;
use tn_text::{write_atom, write_decimal, write_pid};

/// Why no directive stands at a piece of a text of moves.
#[derive_where(Clone, Copy)]
pub enum MovesReason<'a, A: Allocator> {
    /// Nothing that may move stands there, but this.
    NoMover {
        found: &'a [u8],
    },
    /// A digit is first, and this is no number.
    NoNumber {
        found: &'a [u8],
    },
    /// How often this moves isn't what stands after it.
    NoCount {
        mover: &'a [u8],
        amount: &'a [u8],
    },
    /// No initial process starts in a function of this name; these are the initial processes.
    NoStart {
        name: &'a [u8],
        entries: &'a [Entry<A>],
    },
    /// Several do, which have these pids.
    ManyStarts {
        name: &'a [u8],
        pids: &'a [u32],
    },
    /// It isn't known which initial processes there are.
    NoProgram,
}

/// Why a text of moves is refused.
#[derive_where(Clone, Copy)]
pub enum BadMoves<'a, A: Allocator> {
    /// It has more bytes than a text may have.
    TooManyBytes,
    /// No directive stands at this line and column.
    NoDirective {
        line: usize,
        column: usize,
        reason: MovesReason<'a, A>,
    },
}

/// The byte, or a question mark where it isn't printable.
fn plain_byte(b: u8) -> u8
    ensures { result ≡ plain_byte b }
{
    if 32 <= b && b <= 126 { b } else { b'?' }
}

/// Appends the bytes, with a question mark in place of each that isn't printable.
fn put_plain<B: Allocator>(bytes: &[u8], out: &mut Vec<u8, B>) -> Result<(), AllocError>
    ensures ok { OnOk result (out.new.items ≡ out.old.items ++ plain_bytes bytes.now) }
    ensures grows { Grows out.old.items out.new.items }
{
    for b in bytes {
        out.push(plain_byte(*b))?;
    }
    Ok(())
}

/// Appends these pids, with commas between them.
fn put_pids<B: Allocator>(pids: &[u32], out: &mut Vec<u8, B>) -> Result<(), AllocError>
    ensures ok { OnOk result (out.new.items ≡ out.old.items ++ pids_text pids.now) }
    ensures grows { Grows out.old.items out.new.items }
{
    let mut between: &[u8] = b"";
    for pid in pids {
        out.extend_from_slice(between)?;
        write_pid(*pid, out)?;
        between = b", ";
    }
    Ok(())
}

/// Appends the pid of the initial process after so many.
fn put_start_pid<B: Allocator>(before: usize, out: &mut Vec<u8, B>) -> Result<(), AllocError>
    ensures ok { OnOk result (out.new.items ≡ out.old.items ++ pid_text (FIRST_PID + before)) }
    ensures grows { Grows out.old.items out.new.items }
{
    out.extend_from_slice(b"<0.")?;
    write_decimal(100 + before as u128, out)?;
    out.extend_from_slice(b".0>")
}

/// Appends the function of an initial process after so many, and its pid, after this text.
fn put_start<A: Allocator, B: Allocator>(
    between: &[u8],
    before: usize,
    entry: &Entry<A>,
    out: &mut Vec<u8, B>,
) -> Result<(), AllocError>
    ensures ok { OnOk result (out.new.items ≡
        out.old.items ++ one_start_text between.now (FIRST_PID + before) (entry_name entry.now)) }
    ensures grows { Grows out.old.items out.new.items }
{
    out.extend_from_slice(between)?;
    write_atom(&entry.name, out)?;
    out.extend_from_slice(b" is ")?;
    put_start_pid(before, out)
}

/// Appends the function of each initial process, with its pid.
fn put_starts<A: Allocator, B: Allocator>(
    entries: &[Entry<A>],
    out: &mut Vec<u8, B>,
) -> Result<(), AllocError>
    ensures ok { OnOk result (out.new.items ≡ out.old.items ++ starts_text (map entry_name entries.now)) }
    ensures grows { Grows out.old.items out.new.items }
{
    let mut between: &[u8] = b"; ";
    for i in 0..entries.len() {
        put_start(between, i, &entries[i], out)?;
        between = b", ";
    }
    Ok(())
}

/// Appends a name between two texts.
fn put_named<B: Allocator>(
    before: &[u8],
    name: &[u8],
    after: &[u8],
    out: &mut Vec<u8, B>,
) -> Result<(), AllocError>
    ensures ok { OnOk result (out.new.items ≡ out.old.items ++ (before.now ++ plain_bytes name.now ++ after.now)) }
    ensures grows { Grows out.old.items out.new.items }
{
    out.extend_from_slice(before)?;
    put_plain(name, out)?;
    out.extend_from_slice(after)
}

/// Appends what stands there instead.
fn put_instead<B: Allocator>(found: &[u8], out: &mut Vec<u8, B>) -> Result<(), AllocError>
    ensures ok { OnOk result (out.new.items ≡ out.old.items ++ instead_text found.now) }
    ensures grows { Grows out.old.items out.new.items }
{
    if found.is_empty() {
        return out.extend_from_slice(b", found nothing");
    }
    put_named(b", found '", found, b"'", out)
}

/// Appends what is expected, and what stands there instead.
fn put_expected<B: Allocator>(
    words: &[u8],
    found: &[u8],
    out: &mut Vec<u8, B>,
) -> Result<(), AllocError>
    ensures ok { OnOk result (out.new.items ≡ out.old.items ++ (words.now ++ instead_text found.now)) }
    ensures grows { Grows out.old.items out.new.items }
{
    out.extend_from_slice(words)?;
    put_instead(found, out)
}

/// What may stand after who moves.
fn amount_words(amount: &[u8]) -> &'static [u8]
    ensures { result.now ≡ (if begins_with_star amount.now
        then codes "* a number up to 65535 without a leading zero is expected" else codes "! a blank is expected") }
{
    match amount.first() {
        Some(b'*') => b"* a number up to 65535 without a leading zero is expected",
        _ => b"! a blank is expected",
    }
}

/// The bytes after the first.
fn after_first(bytes: &[u8]) -> &[u8]
    ensures { result.now ≡ drop 1 bytes.now }
{
    if bytes.is_empty() { bytes } else { &bytes[1..] }
}

/// Appends what may stand after who moves, and what does.
fn put_amount<B: Allocator>(amount: &[u8], out: &mut Vec<u8, B>) -> Result<(), AllocError>
    ensures ok { OnOk result (out.new.items ≡ out.old.items ++ amount_text amount.now) }
    ensures grows { Grows out.old.items out.new.items }
{
    out.extend_from_slice(amount_words(amount))?;
    put_instead(after_first(amount), out)
}

/// Appends how often a process moves, which isn't what stands there.
fn put_no_count<B: Allocator>(
    before: &[u8],
    mover: &[u8],
    amount: &[u8],
    out: &mut Vec<u8, B>,
) -> Result<(), AllocError>
    ensures ok { OnOk result (out.new.items ≡
        out.old.items ++ (before.now ++ plain_bytes mover.now ++ amount_text amount.now)) }
    ensures grows { Grows out.old.items out.new.items }
{
    out.extend_from_slice(before)?;
    put_plain(mover, out)?;
    put_amount(amount, out)
}

/// Whether one of the bytes is this one.
fn has_mark(mark: u8, name: &[u8]) -> bool
    ensures { result ≡ has_mark mark name.now }
{
    name.iter().any(|b| *b == mark)
}

/// How a name is written that has a comma, a colon or a slash.
fn marks_hint(name: &[u8]) -> &'static [u8]
    ensures { result.now ≡ marks_hint_text name.now }
{
    if has_mark(b',', name) {
        return b": moves have blanks between them, and no commas";
    }
    if has_mark(b':', name) || has_mark(b'/', name) {
        return b": a function is written by its name alone";
    }
    b""
}

/// How who moves is written, where this is a pid, begins with a quote or has such a mark.
fn name_hint(name: &[u8]) -> &'static [u8]
    ensures { result.now ≡ mover_hint_text name.now }
{
    match name.first() {
        Some(b'<') => b": a process is written by the number in its pid, as 100 for <0.100.0>",
        Some(b'\'') => b": a name has quotes only where its atom needs them",
        _ => marks_hint(name),
    }
}

/// Appends a name after a text, how it is written, and initial processes.
fn put_no_start<A: Allocator, B: Allocator>(
    before: &[u8],
    name: &[u8],
    entries: &[Entry<A>],
    out: &mut Vec<u8, B>,
) -> Result<(), AllocError>
    ensures ok { OnOk result (out.new.items ≡ out.old.items ++ (before.now ++ plain_bytes name.now
        ++ mover_hint_text name.now ++ starts_text (map entry_name entries.now))) }
    ensures grows { Grows out.old.items out.new.items }
{
    put_named(before, name, name_hint(name), out)?;
    put_starts(entries, out)
}

/// Appends a name between two texts, and pids.
fn put_many_starts<B: Allocator>(
    before: &[u8],
    name: &[u8],
    after: &[u8],
    pids: &[u32],
    out: &mut Vec<u8, B>,
) -> Result<(), AllocError>
    ensures ok { OnOk result (out.new.items ≡ out.old.items ++ (before.now ++ plain_bytes name.now ++ after.now
        ++ pids_text pids.now)) }
    ensures grows { Grows out.old.items out.new.items }
{
    put_named(before, name, after, out)?;
    put_pids(pids, out)
}

/// Appends why no directive stands at a piece.
fn put_reason<A: Allocator, B: Allocator>(
    reason: MovesReason<'_, A>,
    out: &mut Vec<u8, B>,
) -> Result<(), AllocError>
    ensures ok { OnOk result (out.new.items ≡ out.old.items ++ moves_reason_text (moves_reason_seen reason.entry)) }
    ensures grows { Grows out.old.items out.new.items }
{
    match reason {
        MovesReason::NoMover { found } => {
            put_expected(b"a number, a name or `*` alone is expected", found, out)
        }
        MovesReason::NoNumber { found } => put_expected(
            b"a number below 4294967296 without a leading zero is expected",
            found,
            out,
        ),
        MovesReason::NoCount { mover, amount } => put_no_count(b"after ", mover, amount, out),
        MovesReason::NoStart { name, entries } => put_no_start(
            b"no initial process starts in a function ",
            name,
            entries,
            out,
        ),
        MovesReason::ManyStarts { name, pids } => put_many_starts(
            b"several initial processes start in a function ",
            name,
            b": ",
            pids,
            out,
        ),
        MovesReason::NoProgram => Ok(()),
    }
}

/// Appends a line and a column, after the name of the text.
fn put_moves_place<B: Allocator>(
    line: usize,
    column: usize,
    out: &mut Vec<u8, B>,
) -> Result<(), AllocError>
    ensures ok { OnOk result (out.new.items ≡
        out.old.items ++ (codes "moves:" ++ decimal line ++ codes ":" ++ decimal column ++ codes ": ")) }
    ensures grows { Grows out.old.items out.new.items }
{
    out.extend_from_slice(b"moves:")?;
    write_decimal(line, out)?;
    out.extend_from_slice(b":")?;
    write_decimal(column, out)?;
    out.extend_from_slice(b": ")
}

/// Appends the line; after an `Err` a part of it may be there.
fn put_line<A: Allocator, B: Allocator>(
    moves: BadMoves<'_, A>,
    out: &mut Vec<u8, B>,
) -> Result<(), AllocError>
    ensures ok { OnOk result (out.new.items ≡ out.old.items ++ bad_moves_text (bad_moves_seen moves.entry)) }
    ensures grows { Grows out.old.items out.new.items }
{
    match moves {
        BadMoves::TooManyBytes => out.extend_from_slice(b"moves: longer than 1048576 bytes"),
        BadMoves::NoDirective {
            line,
            column,
            reason,
        } => {
            put_moves_place(line, column, out)?;
            put_reason(reason, out)
        }
    }
}

/// Appends the line that says where a text of moves is refused, and why.
///
/// # Errors
///
/// AllocError where memory was refused: the vector is as it was.
pub fn write_bad_moves<A: Allocator, B: Allocator>(
    moves: BadMoves<'_, A>,
    out: &mut Vec<u8, B>,
) -> Result<(), AllocError>
    ensures ok { OnOk result (out.new.items ≡ out.old.items ++ bad_moves_text (bad_moves_seen moves.entry)) }
    ensures err { OnErr result (out.new.items ≡ out.old.items) }
{
    let len = out.len();
    let done = put_line(moves, out);
    if done.is_err() {
        out.truncate(len);
    }
    done
}
