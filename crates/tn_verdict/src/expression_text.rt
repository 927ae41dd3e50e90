// The text of the term that spells an expression.
ghost use Rattle.std.specs.Prelude.{◌≡◌, ◌++◌, ◌∷◌, [], OnOk};
ghost use Rattle.def_term.specs.Text.{w, each_after_comma, atom_text};
ghost use Rattle.def_explain.specs.Spellings.{spelling, is_itself, reads_as_itself, constant_spelling};
ghost use Rattle.tn_term.specs.Views.{tree_of};
ghost use Rattle.tn_spec.specs.Views.{expr_seen};
ghost use Rattle.tn_text.specs.Writes.{Grows};
ghost use Rattle.tn_verdict.specs.ExpressionTexts.{joined_texts, after_commas, spelled_after, variable_name};

use crate::names::{action_text, function_text};
use std::alloc::{AllocError, Allocator};
use tn_spec::{AtomKind, Expr, kind_of};
use tn_term::Term;
use tn_text::{write_decimal, write_term};

/// Appends the text of the term that spells an expression. After an `Err` a part of it may stand there.
#[cycle(put)]
pub fn put_expr<A: Allocator, B: Allocator>(
    expr: &Expr<A>,
    out: &mut Vec<u8, B>,
) -> Result<(), AllocError>
    ensures ok { OnOk result (out.new.items ≡ out.old.items ++ w (spelling (expr_seen expr.now))) }
    ensures grows { Grows out.old.items out.new.items }
{
    match expr {
        Expr::Variable(number) => put_variable(*number, out),
        Expr::WholeList => out.extend_from_slice(b"'$_'"),
        Expr::AllBound => out.extend_from_slice(b"'$$'"),
        Expr::Constant(term) => put_constant(term, out),
        Expr::Tuple(exprs) => put_tuple(exprs, out),
        Expr::List(exprs) => put_list(exprs, out),
        Expr::Call(func, exprs) => put_named(function_text(*func), exprs, out),
        Expr::AndAlso(exprs) => put_named(b"'andalso'", exprs, out),
        Expr::OrElse(exprs) => put_named(b"'orelse'", exprs, out),
        Expr::Perform(action, exprs) => put_named(action_text(*action), exprs, out),
    }
}

/// Appends `{{E1,..}}`.
#[cycle(put)]
fn put_tuple<A: Allocator, B: Allocator>(
    exprs: &Vec<Expr<A>, A>,
    out: &mut Vec<u8, B>,
) -> Result<(), AllocError>
    ensures ok { OnOk result (out.new.items ≡ out.old.items ++ 123 ∷ 123 ∷ joined_texts exprs.now ++ 125 ∷ 125 ∷ []) }
    ensures grows { Grows out.old.items out.new.items }
{
    out.extend_from_slice(b"{{")?;
    put_all(exprs, out)?;
    out.extend_from_slice(b"}}")
}

/// Appends `[E1,..]`.
#[cycle(put)]
fn put_list<A: Allocator, B: Allocator>(
    exprs: &Vec<Expr<A>, A>,
    out: &mut Vec<u8, B>,
) -> Result<(), AllocError>
    ensures ok { OnOk result (out.new.items ≡ out.old.items ++ 91 ∷ joined_texts exprs.now ++ 93 ∷ []) }
    ensures grows { Grows out.old.items out.new.items }
{
    out.push(b'[')?;
    put_all(exprs, out)?;
    out.push(b']')?;
    Ok(())
}

/// Appends `{NAME,E1,..}`.
#[cycle(put)]
fn put_named<A: Allocator, B: Allocator>(
    name: &'static [u8],
    exprs: &Vec<Expr<A>, A>,
    out: &mut Vec<u8, B>,
) -> Result<(), AllocError>
    ensures ok { OnOk result (out.new.items ≡ out.old.items ++ 123 ∷ name.now ++ after_commas exprs.now ++ 125 ∷ []) }
    ensures grows { Grows out.old.items out.new.items }
{
    out.push(b'{')?;
    out.extend_from_slice(name)?;
    put_after(exprs, 0, out)?;
    out.push(b'}')?;
    Ok(())
}

/// Appends the texts of several expressions, with a comma between any two.
#[cycle(put)]
fn put_all<A: Allocator, B: Allocator>(
    exprs: &Vec<Expr<A>, A>,
    out: &mut Vec<u8, B>,
) -> Result<(), AllocError>
    ensures ok { OnOk result (out.new.items ≡ out.old.items ++ joined_texts exprs.now) }
    ensures grows { Grows out.old.items out.new.items }
{
    if exprs.is_empty() {
        return Ok(());
    }
    put_expr(&exprs[0], out)?;
    put_after(exprs, 1, out)
}

/// Appends the texts of the expressions after the first so many, each with a comma before it.
#[cycle(put)]
fn put_after<A: Allocator, B: Allocator>(
    exprs: &Vec<Expr<A>, A>,
    count: usize,
    out: &mut Vec<u8, B>,
) -> Result<(), AllocError>
    ensures ok { OnOk result (out.new.items ≡ out.old.items ++ each_after_comma (spelled_after count exprs.now)) }
    ensures grows { Grows out.old.items out.new.items }
{
    for i in count..exprs.len() {
        out.push(b',')?;
        put_expr(&exprs[i], out)?;
    }
    Ok(())
}

/// Appends `'$N'`.
pub fn put_variable<B: Allocator>(number: u16, out: &mut Vec<u8, B>) -> Result<(), AllocError>
    ensures ok { OnOk result (out.new.items ≡ out.old.items ++ atom_text (variable_name number)) }
    ensures grows { Grows out.old.items out.new.items }
{
    out.extend_from_slice(b"'$")?;
    write_decimal(number, out)?;
    out.push(b'\'')?;
    Ok(())
}

/// Appends the term where it is read as itself, else `{const,T}`.
fn put_constant<A: Allocator, B: Allocator>(
    term: &Term<A>,
    out: &mut Vec<u8, B>,
) -> Result<(), AllocError>
    ensures ok { OnOk result (out.new.items ≡ out.old.items ++ w (constant_spelling (tree_of term.now))) }
    ensures grows { Grows out.old.items out.new.items }
{
    if is_read_as_itself(term) {
        return write_term(term, out);
    }
    out.extend_from_slice(b"{const,")?;
    write_term(term, out)?;
    out.push(b'}')?;
    Ok(())
}

/// Whether a term that stands in an expression is read as itself.
fn is_read_as_itself<A: Allocator>(term: &Term<A>) -> bool
    ensures { result ≡ reads_as_itself (tree_of term.now) }
{
    match term {
        Term::Int(_) | Term::Pid(_) => true,
        Term::Atom(atom) => is_plain(atom.text()),
        Term::Tuple(_) | Term::List(_) => false,
    }
}

/// Whether an atom of this text is no variable, `'$_'` or `'$$'`.
fn is_plain(text: &str) -> bool
    ensures { result ≡ is_itself text.now }
{
    match kind_of(text) {
        AtomKind::Plain => text != "$_" && text != "$$",
        AtomKind::Variable(_) | AtomKind::WrongVariable => false,
    }
}
