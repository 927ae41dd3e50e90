// Values of JSON that answers have.
ghost use Rattle.std.specs.Prelude.{◌≡◌, ◌++◌, ◌∷◌, [], OnOk, codes, map};
ghost use Rattle.std.specs.Option.{option_map};
ghost use Rattle.json.specs.Token.{key};
ghost use Rattle.json.specs.Tree.{json_tokens};
ghost use Rattle.def_term.specs.Text.{atom_text, w};
ghost use Rattle.def_term.specs.Tree.{pid};
ghost use Rattle.def_formats.specs.JsonRows.{text_value};
ghost use Rattle.def_compare.specs.AnswerRows.{journal_value, pair_row, pairs_value, picks_value, term_value};
ghost use Rattle.tn_formats.specs.Tokens.{AddsTokens, text_member};
ghost use Rattle.tn_renaming.specs.Pairs.{lent_term_seen, pair_seen};
ghost use Rattle.tn_term.specs.Views.{tree_of};

use json::Writer;
use std::alloc::{AllocError, Allocator};
use tn_formats::{put_numbers, put_text_member};
use tn_renaming::PidPair;
use tn_term::{Atom, Term};
use tn_text::{write_atom, write_pid, write_term};

/// Writes a member with the picks of a journal.
pub(crate) fn put_picks_member<A: Allocator>(
    writer: &mut Writer<A>,
    name: &str,
    picks: &[u32],
) -> Result<(), AllocError>
    ensures { AddsTokens result writer.old writer.new (key name.now ∷ json_tokens (picks_value picks.now)) }
{
    writer.key(name)?;
    put_numbers(writer, picks)
}

/// Writes one with the picks of a journal, or with null.
pub(crate) fn put_journal_member<A: Allocator>(
    writer: &mut Writer<A>,
    name: &str,
    journal: Option<&[u32]>,
) -> Result<(), AllocError>
    ensures { let j = option_map (λ v. v.now) journal.entry in
        AddsTokens result writer.old writer.new (key name.now ∷ json_tokens (journal_value j)) }
{
    let Some(picks) = journal else {
        writer.key(name)?;
        return writer.null();
    };
    put_picks_member(writer, name, picks)
}

/// Writes one with the text of a term.
pub(crate) fn put_text_of<A: Allocator + Copy, P: Allocator>(
    alloc: A,
    writer: &mut Writer<A>,
    name: &str,
    term: &Term<P>,
) -> Result<(), AllocError>
    ensures { AddsTokens result writer.old writer.new (text_member name.now (w (tree_of term.now))) }
{
    let mut text = Vec::new(alloc);
    write_term(term, &mut text)?;
    put_text_member(writer, name, &text)
}

/// Writes one with the text of a term, or with null.
pub(crate) fn put_term_member<A: Allocator + Copy, P: Allocator>(
    alloc: A,
    writer: &mut Writer<A>,
    name: &str,
    term: Option<&Term<P>>,
) -> Result<(), AllocError>
    ensures { let t = option_map lent_term_seen term.entry in
        AddsTokens result writer.old writer.new (key name.now ∷ json_tokens (term_value t)) }
{
    let Some(term) = term else {
        writer.key(name)?;
        return writer.null();
    };
    put_text_of(alloc, writer, name, term)
}

/// Writes one with the text of a pid.
fn put_pid_member<A: Allocator + Copy>(
    alloc: A,
    writer: &mut Writer<A>,
    name: &str,
    number: u32,
) -> Result<(), AllocError>
    ensures { AddsTokens result writer.old writer.new (text_member name.now (w (pid number))) }
{
    let mut text = Vec::new(alloc);
    write_pid(number, &mut text)?;
    put_text_member(writer, name, &text)
}

/// Writes which pid of the run a pid of the trace is.
fn put_pair_row<A: Allocator + Copy>(
    alloc: A,
    writer: &mut Writer<A>,
    pair: PidPair,
) -> Result<(), AllocError>
    ensures { AddsTokens result writer.old writer.new (json_tokens (pair_row (pair_seen pair))) }
{
    writer.begin_object()?;
    put_pid_member(alloc, writer, "trace", pair.there)?;
    put_pid_member(alloc, writer, "run", pair.here)?;
    writer.end_object()
}

/// Writes a member with which pids are which.
pub(crate) fn put_pairs_member<A: Allocator + Copy>(
    alloc: A,
    writer: &mut Writer<A>,
    pairs: &[PidPair],
) -> Result<(), AllocError>
    ensures { AddsTokens result writer.old writer.new
        (key (codes "pids") ∷ json_tokens (pairs_value (map pair_seen pairs.now))) }
{
    writer.key("pids")?;
    writer.begin_array()?;
    for pair in pairs {
        put_pair_row(alloc, writer, *pair)?;
    }
    writer.end_array()
}

/// Writes a member with the text of an atom.
pub(crate) fn put_atom_member<A: Allocator + Copy, N: Allocator>(
    alloc: A,
    writer: &mut Writer<A>,
    name: &str,
    atom: &Atom<N>,
) -> Result<(), AllocError>
    ensures { AddsTokens result writer.old writer.new (text_member name.now (atom_text atom.now)) }
{
    let mut text = Vec::new(alloc);
    write_atom(atom, &mut text)?;
    put_text_member(writer, name, &text)
}
