// The written text of terms and atoms.
ghost use Rattle.std.specs.Prelude.{◌≡◌, ◌≤◌, [], true, length, OnOk, OnErr};
ghost use Rattle.def_term.specs.Text.{w};
ghost use Rattle.def_text.specs.Limits.{DEPTH, Fits};
ghost use Rattle.def_text.specs.Spelling.{LENGTH};
ghost use Rattle.def_text.specs.Writable.{is_writable};
ghost use Rattle.tn_term.specs.Views.{tree_of};
ghost use Rattle.complete_terms.specs.Answers.{ReadsAs};

use itoa::Integer;
use std::alloc::{AllocError, Allocator};
use tn_term::{Atom, Term};
use tn_text::{TextFault, read_term, write_atom, write_term};

/// `tn_text::write_term` leaves one text, and after a refusal the text that was there.
pub fn term<A: Allocator, B: Allocator>(
    one: &Term<A>,
    other: &Term<A>,
    first: &mut Vec<u8, B>,
    second: &mut Vec<u8, B>,
) -> (Result<(), AllocError>, Result<(), AllocError>)
    requires terms { tree_of one.now ≡ tree_of other.now }
    requires texts { first.old.items ≡ second.old.items }
    ensures ok { OnOk result.0 (OnOk result.1 (first.new.items ≡ second.new.items)) }
    ensures err { OnErr result.0 (OnErr result.1 (first.new.items ≡ second.new.items)) }
{
    (write_term(one, first), write_term(other, second))
}

/// `tn_text::write_term` leaves a text that `read_term` reads as the same term, where term and text are
/// within the limits on texts.
pub fn read_back<A: Allocator + Copy, B: Allocator>(
    alloc: A,
    term: &Term<A>,
    text: &mut Vec<u8, B>,
) -> Result<Term<A>, TextFault>
    requires empty { text.old.items ≡ [] }
    requires writable { is_writable (tree_of term.now) ≡ true }
    requires fits { Fits DEPTH true (tree_of term.now) }
    requires short { length (w (tree_of term.now)) ≤ LENGTH }
    ensures { ReadsAs (tree_of term.now) result }
{
    let Ok(()) = write_term(term, text) else {
        return Err(TextFault::OutOfMemory);
    };
    read_term(alloc, text.as_slice())
}

/// `tn_text::write_atom` leaves one text, and after a refusal the text that was there.
pub fn atom<A: Allocator, B: Allocator>(
    atom: &Atom<A>,
    first: &mut Vec<u8, B>,
    second: &mut Vec<u8, B>,
) -> (Result<(), AllocError>, Result<(), AllocError>)
    requires { first.old.items ≡ second.old.items }
    ensures ok { OnOk result.0 (OnOk result.1 (first.new.items ≡ second.new.items)) }
    ensures err { OnErr result.0 (OnErr result.1 (first.new.items ≡ second.new.items)) }
{
    (write_atom(atom, first), write_atom(atom, second))
}

/// `tn_text::write_decimal` has one answer but for what is left after refused memory: that is a part of it.
pub fn write_decimal<N: Integer, B: Allocator>(
    number: N,
    first: &mut Vec<u8, B>,
    second: &mut Vec<u8, B>,
) -> (Result<(), AllocError>, Result<(), AllocError>)
    requires { first.old.items ≡ second.old.items }
    ensures { OnOk result.0 (OnOk result.1 (first.new.items ≡ second.new.items)) }
{
    (
        tn_text::write_decimal(number, first),
        tn_text::write_decimal(number, second),
    )
}

/// `tn_text::write_next` has one answer but for what is left after refused memory: that is a part of it.
pub fn write_next<B: Allocator>(
    number: usize,
    first: &mut Vec<u8, B>,
    second: &mut Vec<u8, B>,
) -> (Result<(), AllocError>, Result<(), AllocError>)
    requires { first.old.items ≡ second.old.items }
    ensures { OnOk result.0 (OnOk result.1 (first.new.items ≡ second.new.items)) }
{
    (
        tn_text::write_next(number, first),
        tn_text::write_next(number, second),
    )
}

/// `tn_text::write_pid` has one answer but for what is left after refused memory: that is a part of it.
pub fn write_pid<B: Allocator>(
    pid: u32,
    first: &mut Vec<u8, B>,
    second: &mut Vec<u8, B>,
) -> (Result<(), AllocError>, Result<(), AllocError>)
    requires { first.old.items ≡ second.old.items }
    ensures { OnOk result.0 (OnOk result.1 (first.new.items ≡ second.new.items)) }
{
    (
        tn_text::write_pid(pid, first),
        tn_text::write_pid(pid, second),
    )
}
