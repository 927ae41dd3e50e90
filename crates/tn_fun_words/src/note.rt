// A note on a fun, and its line.
ghost use Rattle.std.specs.Prelude.{◌≡◌, ◌++◌, ℕ, List, OnOk, flat_map};
ghost use Rattle.def_fun_words.specs.Notes.{note_offset, note_words, note_place, note_line};
ghost use Rattle.tn_fun.specs.Trees.{token_name};
ghost use Rattle.tn_fun_words.specs.NoteViews.{fun_note_seen, fun_notes_seen};

use std::alloc::{AllocError, Allocator};
use tn_fun::{Token, name_of};
use tn_refusal::line_column_of;
use tn_text::write_decimal;

/// What is noted, with its token.
#[derive(Clone, Copy)]
pub enum Note {
    /// The name of the whole, in the list.
    WholeInList(Token),
    /// A call of `bindings()`.
    BindingsCalled(Token),
    /// `_` in a guard or a body.
    AnyInExpression(Token),
    /// A call with which `erlang:match_spec_test/3` ends the node.
    TestEndsNode(Token),
}

/// The token that is noted.
fn token_of(note: Note) -> Token
    ensures { (text : List ℕ) → result.from ≡ note_offset (fun_note_seen text note) }
{
    match note {
        Note::WholeInList(token) => token,
        Note::BindingsCalled(token) => token,
        Note::AnyInExpression(token) => token,
        Note::TestEndsNode(token) => token,
    }
}

/// Appends the name that a token spells.
fn put_name<A: Allocator + Copy>(
    alloc: A,
    bytes: &[u8],
    token: Token,
    out: &mut Vec<u8, A>,
) -> Result<(), AllocError>
    ensures { OnOk result (out.new.items ≡ out.old.items ++ token_name bytes.now token) }
{
    let name = name_of(alloc, bytes, token)?;
    out.extend_from_slice(&name)
}

/// Appends the words of a note.
fn put_words<A: Allocator + Copy>(
    alloc: A,
    bytes: &[u8],
    note: Note,
    out: &mut Vec<u8, A>,
) -> Result<(), AllocError>
    ensures { OnOk result (out.new.items ≡ out.old.items ++ note_words (fun_note_seen bytes.now note)) }
{
    match note {
        Note::WholeInList(token) => {
            put_name(alloc, bytes, token, out)?;
            out.extend_from_slice(b" is the whole, and in the list it is the atom '$_'")
        }
        Note::BindingsCalled(_) => {
            out.extend_from_slice(b"bindings() is the atom '$*', on a node and here")
        }
        Note::AnyInExpression(_) => out.extend_from_slice(b"_ is the atom '_' here"),
        Note::TestEndsNode(token) => {
            out.extend_from_slice(b"erlang:match_spec_test/3 of OTP 27 can end the node at ")?;
            put_name(alloc, bytes, token, out)
        }
    }
}

/// Appends the line and the column of an offset.
fn put_place<B: Allocator>(bytes: &[u8], at: usize, out: &mut Vec<u8, B>) -> Result<(), AllocError>
    ensures { OnOk result (out.new.items ≡ out.old.items ++ note_place bytes.now at) }
{
    let place = line_column_of(bytes, at);
    out.extend_from_slice(b"fun:")?;
    write_decimal(place.line, out)?;
    out.extend_from_slice(b":")?;
    write_decimal(place.column, out)?;
    out.extend_from_slice(b": ")
}

/// Appends the line of a note.
fn put_note<A: Allocator + Copy>(
    alloc: A,
    bytes: &[u8],
    note: Note,
    out: &mut Vec<u8, A>,
) -> Result<(), AllocError>
    ensures { OnOk result (out.new.items ≡ out.old.items ++ note_line bytes.now (fun_note_seen bytes.now note)) }
{
    put_place(bytes, token_of(note).from, out)?;
    put_words(alloc, bytes, note, out)?;
    Ok(out.push(b'\n')?)
}

/// Appends the line of a note, where there is one.
pub fn put_note_where<A: Allocator + Copy>(
    alloc: A,
    bytes: &[u8],
    note: Option<Note>,
    out: &mut Vec<u8, A>,
) -> Result<(), AllocError>
    ensures { OnOk result (out.new.items
        ≡ out.old.items ++ flat_map (note_line bytes.now) (fun_notes_seen bytes.now note)) }
{
    match note {
        Some(note) => put_note(alloc, bytes, note, out),
        None => Ok(()),
    }
}
