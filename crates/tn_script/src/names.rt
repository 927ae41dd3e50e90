// The atoms of a script: names, variables, targets.
ghost use Rattle.std.specs.Prelude.{◌≡◌};
ghost use Rattle.def_script.specs.Program.{is_variable as is_variable_name};
ghost use Rattle.def_script.specs.Shapes.{is_plain_name, is_own_variable, name_in, variable_in, target_in, exported_in};
ghost use Rattle.def_script.specs.Shapes.{both, target_of, exported_of};
ghost use Rattle.tn_term.specs.Views.{tree_of};

use std::alloc::Allocator;
use tn_term::{Atom, Term};

/// Whether an atom of this text is a variable: its first character is a capital letter.
pub fn is_variable(text: &str) -> bool
    ensures { result ≡ is_variable_name text.now }
{
    match text.as_bytes().first() {
        Some(first) => b'A' <= *first && *first <= b'Z',
        None => false,
    }
}

/// Whether it is neither a variable nor `'_'`.
fn is_name(text: &str) -> bool
    ensures { result ≡ is_plain_name text.now }
{
    !is_variable(text) && text != "_"
}

/// Whether it is a variable other than `'Self'`.
fn is_bindable(text: &str) -> bool
    ensures { result ≡ is_own_variable text.now }
{
    is_variable(text) && text != "Self"
}

/// The atom, where the term is a name.
pub fn name<A: Allocator>(term: Term<A>) -> Option<Atom<A>>
    ensures { result ≡ name_in (tree_of term) }
{
    let Term::Atom(atom) = term else {
        return None;
    };
    if is_name(atom.text()) {
        Some(atom)
    } else {
        None
    }
}

/// The atoms, where both terms are names.
pub fn two_names<A: Allocator>(one: Term<A>, other: Term<A>) -> Option<(Atom<A>, Atom<A>)>
    ensures { result ≡ both (λ x y. (x, y)) (name_in (tree_of one)) (name_in (tree_of other)) }
{
    let one = name(one)?;
    Some((one, name(other)?))
}

/// The atom, where the term is a variable other than `'Self'`.
pub fn variable<A: Allocator>(term: Term<A>) -> Option<Atom<A>>
    ensures { result ≡ variable_in (tree_of term) }
{
    let Term::Atom(atom) = term else {
        return None;
    };
    if is_bindable(atom.text()) {
        Some(atom)
    } else {
        None
    }
}

/// The target that the atom names, if it names one.
fn named_target<A: Allocator>(atom: Atom<A>) -> Option<Option<Atom<A>>>
    ensures { result ≡ target_of atom }
{
    if atom.text() == "_" {
        Some(None)
    } else if is_bindable(atom.text()) {
        Some(Some(atom))
    } else {
        None
    }
}

/// The target, where the term is one: no variable for `'_'`.
pub fn target<A: Allocator>(term: Term<A>) -> Option<Option<Atom<A>>>
    ensures { result ≡ target_in (tree_of term) }
{
    match term {
        Term::Atom(atom) => named_target(atom),
        _ => None,
    }
}

/// The visibility of this name: true for `exported`, false for `internal`.
fn named_visibility(text: &str) -> Option<bool>
    ensures { result ≡ exported_of text.now }
{
    match text {
        "exported" => Some(true),
        "internal" => Some(false),
        _ => None,
    }
}

/// True for `exported`, false for `internal`.
pub fn visibility_of<A: Allocator>(term: Term<A>) -> Option<bool>
    ensures { result ≡ exported_in (tree_of term) }
{
    match term {
        Term::Atom(atom) => named_visibility(atom.text()),
        _ => None,
    }
}
