// The texts of values.
ghost use Rattle.std.specs.Prelude.{◌≡◌, ◌++◌, OnOk};
ghost use Rattle.def_term.specs.Text.{w, comma_list};
ghost use Rattle.tn_text.specs.Writes.{Grows, enclose};
ghost use Rattle.tn_guard.specs.Views.{atom_const_seen, value_seen, list_view_seen};

use crate::list_view::ListView;
use crate::value::{AtomConst, Value};
use std::alloc::{AllocError, Allocator};
use tn_term::Term;
use tn_text::{write_atom, write_term};

/// The written text of an atom that evaluation makes.
#[tactic(auto, unfolding(def_term::specs::Text::is_written_bare))]
fn atom_const_text(word: AtomConst) -> &'static [u8]
    ensures { result.now ≡ w (atom_const_seen word) }
{
    match word {
        AtomConst::True => b"true",
        AtomConst::False => b"false",
        AtomConst::Node => b"nonode@nohost",
        AtomConst::Exit => b"'EXIT'",
        AtomConst::Undefined => b"undefined",
    }
}

/// Appends the text of a value, as `tn_text::write_term` that of a term: the value is written where it lies, and no
/// term is made of it. After an `Err`, which is refused memory, a part of it may stand there.
#[cycle(write)]
pub fn write_value<A: Allocator, B: Allocator>(
    value: Value<'_, A>,
    out: &mut Vec<u8, B>,
) -> Result<(), AllocError>
    ensures ok { OnOk result (out.new.items ≡ out.old.items ++ w (value_seen value.entry)) }
    ensures grows { Grows out.old.items out.new.items }
{
    match value {
        Value::Lent(term) => write_term(term, out),
        Value::Rest(items) => put_enclosed(b'[', ListView::Terms(items), b']', out),
        Value::Name(name) => write_atom(name, out),
        Value::Int(n) => write_term(&Term::<B>::Int(n), out),
        Value::Pid(n) => write_term(&Term::<B>::Pid(n), out),
        Value::AtomConst(word) => out.extend_from_slice(atom_const_text(word)),
        Value::Tuple(items) => put_enclosed(b'{', ListView::Values(items), b'}', out),
        Value::List(items) => put_enclosed(b'[', ListView::Values(items), b']', out),
    }
}

/// Appends the texts of the elements, with a comma between any two, and a bracket on each side.
#[cycle(write)]
fn put_enclosed<A: Allocator, B: Allocator>(
    left: u8,
    parts: ListView<'_, A>,
    right: u8,
    out: &mut Vec<u8, B>,
) -> Result<(), AllocError>
    ensures ok { OnOk result (out.new.items ≡ out.old.items ++ enclose left (list_view_seen parts.entry) right) }
    ensures grows { Grows out.old.items out.new.items }
{
    out.push(left)?;
    put_parts(parts, out)?;
    out.push(right)?;
    Ok(())
}

/// Appends the texts of the elements, with a comma between any two.
#[cycle(write)]
fn put_parts<A: Allocator, B: Allocator>(
    parts: ListView<'_, A>,
    out: &mut Vec<u8, B>,
) -> Result<(), AllocError>
    ensures ok { OnOk result (out.new.items ≡ out.old.items ++ comma_list (list_view_seen parts.entry)) }
    ensures grows { Grows out.old.items out.new.items }
{
    if parts.len() == 0 {
        return Ok(());
    }
    write_value(parts.at(0), out)?;
    for i in 1..parts.len() {
        out.push(b',')?;
        write_value(parts.at(i), out)?;
    }
    Ok(())
}
