// The notes on a fun.
ghost use Rattle.std.specs.Prelude.{◌≡◌, ◌++◌, ℕ, List, OnOk, IfOk, flat_map};
ghost use Rattle.def_fun.specs.Variables.{matched_part as part_matched, variable_kind};
ghost use Rattle.def_fun_words.specs.Notes.{changes_flags, note_in_head, note_in_expr, note_of_call, note_of_kind};
ghost use Rattle.def_fun_words.specs.Notes.{note_of_kind_in_head};
ghost use Rattle.def_fun_words.specs.Notes.{expr_notes, row_notes, clause_notes, note_line, notes_text};
ghost use Rattle.tn_fun.specs.Trees.{token_name, fun_expr_seen, fun_row_seen};
ghost use Rattle.tn_fun.specs.Clauses.{fun_head_seen, fun_clause_seen, guards_seen};
ghost use Rattle.tn_fun_words.specs.Views.{head_names_seen};
ghost use Rattle.tn_fun_words.specs.NoteViews.{fun_notes_seen, notes_in_head};

use crate::fun_words::FunWords;
use crate::names::{Names, matched_part, names_of};
use crate::note::{Note, put_note_where};
use crate::parts::put_parts;
use std::alloc::{AllocError, Allocator};
use tn_fun::{Clause, Expr, Head, Token, name_of};

/// Whether it is the name of an action that sets or clears trace flags.
fn changes_flags(name: &[u8]) -> bool
    ensures { result ≡ changes_flags name.now }
{
    name == b"enable_trace".as_slice()
        || name == b"disable_trace".as_slice()
        || name == b"trace".as_slice()
}

/// The note of a variable of a head.
fn note_of_head_variable<A: Allocator + Copy>(
    alloc: A,
    bytes: &[u8],
    names: &Names<A>,
    token: Token,
) -> Result<Option<Note>, AllocError>
    ensures { IfOk result (λ n. fun_notes_seen bytes.now n
        ≡ note_of_kind_in_head (variable_kind (head_names_seen names.now) (token_name bytes.now token))
        (token_name bytes.now token) token.from) }
{
    let name = name_of(alloc, bytes, token)?;
    if names.is_whole(&name) {
        return Ok(Some(Note::WholeInList(token)));
    }
    Ok(None)
}

/// The note of a part of what a head's arguments are matched with.
fn note_in_head<A: Allocator + Copy>(
    alloc: A,
    bytes: &[u8],
    names: &Names<A>,
    part: &Expr<A>,
) -> Result<Option<Note>, AllocError>
    ensures { IfOk result (λ n. fun_notes_seen bytes.now n
        ≡ note_in_head (head_names_seen names.now) (fun_expr_seen bytes.now part.now)) }
{
    match part {
        Expr::Variable(token) => note_of_head_variable(alloc, bytes, names, *token),
        _ => Ok(None),
    }
}

/// The note of a variable in a guard or a body.
fn note_of_variable<A: Allocator + Copy>(
    alloc: A,
    bytes: &[u8],
    names: &Names<A>,
    token: Token,
) -> Result<Option<Note>, AllocError>
    ensures { IfOk result (λ n. fun_notes_seen bytes.now n
        ≡ note_of_kind (variable_kind (head_names_seen names.now) (token_name bytes.now token)) token.from) }
{
    let name = name_of(alloc, bytes, token)?;
    if !names.is_whole(&name) && name.as_slice() == b"_".as_slice() {
        return Ok(Some(Note::AnyInExpression(token)));
    }
    Ok(None)
}

/// The note of a call.
fn note_of_call<A: Allocator + Copy>(
    alloc: A,
    bytes: &[u8],
    token: Token,
) -> Result<Option<Note>, AllocError>
    ensures { IfOk result (λ n. fun_notes_seen bytes.now n ≡ note_of_call (token_name bytes.now token) token.from) }
{
    let name = name_of(alloc, bytes, token)?;
    if name.as_slice() == b"bindings".as_slice() {
        return Ok(Some(Note::BindingsCalled(token)));
    }
    if changes_flags(&name) {
        return Ok(Some(Note::TestEndsNode(token)));
    }
    Ok(None)
}

/// The note of a part of a condition or of an expression of a body.
fn note_in_expr<A: Allocator + Copy>(
    alloc: A,
    bytes: &[u8],
    names: &Names<A>,
    part: &Expr<A>,
) -> Result<Option<Note>, AllocError>
    ensures { IfOk result (λ n. fun_notes_seen bytes.now n
        ≡ note_in_expr (head_names_seen names.now) (fun_expr_seen bytes.now part.now)) }
{
    match part {
        Expr::Variable(token) => note_of_variable(alloc, bytes, names, *token),
        Expr::Call(token, _) => note_of_call(alloc, bytes, *token),
        _ => Ok(None),
    }
}

/// Appends the notes of a head.
fn put_head_notes<A: Allocator + Copy>(
    alloc: A,
    bytes: &[u8],
    names: &Names<A>,
    head: &Head<A>,
    out: &mut Vec<u8, A>,
) -> Result<(), AllocError>
    ensures { OnOk result (out.new.items ≡ out.old.items ++ flat_map (note_line bytes.now)
        (notes_in_head (head_names_seen names.now) (part_matched (fun_head_seen bytes.now head.now)))) }
{
    let mut parts = Vec::new(alloc);
    put_parts(matched_part(head), &mut parts)?;
    for i in 0..parts.len() {
        let note = note_in_head(alloc, bytes, names, parts[i])?;
        put_note_where(alloc, bytes, note, out)?;
    }
    Ok(())
}

/// Appends the notes of a condition, or of an expression of a body.
fn put_expr_notes<A: Allocator + Copy>(
    alloc: A,
    bytes: &[u8],
    names: &Names<A>,
    expr: &Expr<A>,
    out: &mut Vec<u8, A>,
) -> Result<(), AllocError>
    ensures { OnOk result (out.new.items ≡ out.old.items ++ flat_map (note_line bytes.now)
        (expr_notes (head_names_seen names.now) (fun_expr_seen bytes.now expr.now))) }
{
    let mut parts = Vec::new(alloc);
    put_parts(expr, &mut parts)?;
    for i in 0..parts.len() {
        let note = note_in_expr(alloc, bytes, names, parts[i])?;
        put_note_where(alloc, bytes, note, out)?;
    }
    Ok(())
}

/// Appends the notes of a guard or a body.
fn put_row_notes<A: Allocator + Copy>(
    alloc: A,
    bytes: &[u8],
    names: &Names<A>,
    row: &Vec<Expr<A>, A>,
    out: &mut Vec<u8, A>,
) -> Result<(), AllocError>
    ensures { OnOk result (out.new.items ≡ out.old.items ++ flat_map (note_line bytes.now)
        (row_notes (head_names_seen names.now) (fun_row_seen bytes.now row.now.items))) }
{
    for i in 0..row.len() {
        put_expr_notes(alloc, bytes, names, &row[i], out)?;
    }
    Ok(())
}

/// Appends the notes of the guards of a clause.
fn put_guard_notes<A: Allocator + Copy>(
    alloc: A,
    bytes: &[u8],
    names: &Names<A>,
    guards: &Vec<Vec<Expr<A>, A>, A>,
    out: &mut Vec<u8, A>,
) -> Result<(), AllocError>
    ensures { OnOk result (out.new.items ≡ out.old.items ++ flat_map (note_line bytes.now)
        (flat_map (row_notes (head_names_seen names.now)) (guards_seen bytes.now guards.now.items))) }
{
    for i in 0..guards.len() {
        put_row_notes(alloc, bytes, names, &guards[i], out)?;
    }
    Ok(())
}

/// Appends the notes of a clause.
fn put_clause_notes<A: Allocator + Copy>(
    alloc: A,
    bytes: &[u8],
    clause: &Clause<A>,
    out: &mut Vec<u8, A>,
) -> Result<(), AllocError>
    ensures { OnOk result (out.new.items ≡ out.old.items ++ flat_map (note_line bytes.now)
        (clause_notes (fun_clause_seen bytes.now clause.now))) }
{
    let names = names_of(alloc, bytes, &clause.head)?;
    put_head_notes(alloc, bytes, &names, &clause.head, out)?;
    put_guard_notes(alloc, bytes, &names, &clause.guards, out)?;
    put_row_notes(alloc, bytes, &names, &clause.body, out)
}

/// The notes on a fun, each a line with the place of what is noted, and its line feed. An error is refused memory.
pub fn notes_of<A: Allocator + Copy>(
    alloc: A,
    fun: &FunWords<'_, A>,
) -> Result<Vec<u8, A>, AllocError>
    ensures { IfOk result (λ v. v.items ≡ notes_text fun.now.bytes.now) }
{
    let mut out = Vec::new(alloc);
    for i in 0..fun.clauses.len() {
        put_clause_notes(alloc, fun.bytes, &fun.clauses[i], &mut out)?;
    }
    Ok(out)
}
