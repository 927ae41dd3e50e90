// The texts of reasons.
ghost use Rattle.std.specs.Prelude.{◌≡◌, ◌++◌, OnOk, decimal};
ghost use Rattle.def_term.specs.Text.{atom_text};
ghost use Rattle.def_fun.specs.FunTexts.{no_fun_text, clause_part_text, no_fun_line};
ghost use Rattle.def_fun.specs.FunTexts.{wrong_order, no_other_const, no_pid, no_such_call, is_computed};
ghost use Rattle.def_fun.specs.Variables.{dollar_name};
ghost use Rattle.tn_term.specs.Views.{tree_of};
ghost use Rattle.tn_fun_text.specs.Reasons.{no_fun_reason_seen, clause_part_seen, no_fun_seen};

use crate::no_fun::{ClausePart, NoFun};
use crate::reason::Reason;
use std::alloc::{AllocError, Allocator};
use tn_term::{Atom, Term};
use tn_text::{write_atom, write_decimal, write_pid, write_term};

/// Appends the atom of a variable's number.
fn put_numbered<B: Allocator>(number: u16, out: &mut Vec<u8, B>) -> Result<(), AllocError>
    ensures { OnOk result (out.new.items ≡ out.old.items ++ atom_text (dollar_name number)) }
{
    out.extend_from_slice(b"'$")?;
    write_decimal(number, out)?;
    out.extend_from_slice(b"'")
}

/// Appends that a variable's number comes before another.
fn put_wrong_order<B: Allocator>(
    number: u16,
    next: u16,
    out: &mut Vec<u8, B>,
) -> Result<(), AllocError>
    ensures { OnOk result (out.new.items ≡ out.old.items ++ no_fun_text (wrong_order number next)) }
{
    put_numbered(number, out)?;
    out.extend_from_slice(b" comes before ")?;
    put_numbered(next, out)?;
    out.extend_from_slice(b": the variables of a fun have the numbers from 1 in their order")
}

/// Appends that no fun has such a `{const,T}`.
fn put_other_const<A: Allocator, B: Allocator>(
    term: &Term<A>,
    out: &mut Vec<u8, B>,
) -> Result<(), AllocError>
    ensures { OnOk result (out.new.items ≡ out.old.items ++ no_fun_text (no_other_const (tree_of term.now))) }
{
    out.extend_from_slice(b"a fun has {const,T} of atoms that begin with $ alone, and ")?;
    write_term(term, out)?;
    out.extend_from_slice(b" is another")
}

/// Appends that no fun has such a call.
fn put_no_call<B: Allocator>(
    name: &str,
    count: usize,
    out: &mut Vec<u8, B>,
) -> Result<(), AllocError>
    ensures { OnOk result (out.new.items ≡ out.old.items ++ no_fun_text (no_such_call name.now count)) }
{
    out.extend_from_slice(b"a fun has no call ")?;
    out.extend_from_slice(name.as_bytes())?;
    out.extend_from_slice(b"/")?;
    write_decimal(count, out)
}

/// Appends that a fun computes such an operator.
fn put_computed<A: Allocator, B: Allocator>(
    term: &Term<A>,
    out: &mut Vec<u8, B>,
) -> Result<(), AllocError>
    ensures { OnOk result (out.new.items ≡ out.old.items ++ no_fun_text (is_computed (tree_of term.now))) }
{
    out.extend_from_slice(b"a fun computes ")?;
    write_term(term, out)?;
    out.extend_from_slice(b" before it is a specification")
}

/// Appends that no fun has a pid.
fn put_no_pid<B: Allocator>(pid: u32, out: &mut Vec<u8, B>) -> Result<(), AllocError>
    ensures { OnOk result (out.new.items ≡ out.old.items ++ no_fun_text (no_pid pid)) }
{
    out.extend_from_slice(b"a fun has no pids, and ")?;
    write_pid(pid, out)?;
    out.extend_from_slice(b" is one")
}

/// Appends these words and an atom.
fn put_with_atom<A: Allocator, B: Allocator>(
    words: &'static [u8],
    name: &Atom<A>,
    out: &mut Vec<u8, B>,
) -> Result<(), AllocError>
    ensures { OnOk result (out.new.items ≡ out.old.items ++ words.now ++ atom_text name.now) }
{
    out.extend_from_slice(words)?;
    write_atom(name, out)
}

/// Appends the words of a reason.
fn put_reason<A: Allocator, B: Allocator>(
    reason: Reason<'_, A>,
    out: &mut Vec<u8, B>,
) -> Result<(), AllocError>
    ensures { OnOk result (out.new.items ≡ out.old.items ++ no_fun_text (no_fun_reason_seen reason.entry)) }
{
    match reason {
        Reason::WrongOrder(number, next) => put_wrong_order(number, next, out),
        Reason::HeadAtom(name) => put_with_atom(b"a head of a fun has no atom ", name, out),
        Reason::Pid(pid) => put_no_pid(pid, out),
        Reason::DollarAtom(name) => put_with_atom(b"no expression of a fun is ", name, out),
        Reason::OtherConst(term) => put_other_const(term, out),
        Reason::NoCall(name, count) => put_no_call(name, count, out),
        Reason::Computed(term) => put_computed(term, out),
        Reason::EmptyBody => out.extend_from_slice(
            b"the body is empty, and that of a fun has an expression; true there has no effect",
        ),
    }
}

/// Appends these words and a number.
fn put_with_number<B: Allocator>(
    words: &'static [u8],
    number: usize,
    out: &mut Vec<u8, B>,
) -> Result<(), AllocError>
    ensures { OnOk result (out.new.items ≡ out.old.items ++ words.now ++ decimal number) }
{
    out.extend_from_slice(words)?;
    write_decimal(number, out)
}

/// Appends the words of a part.
fn put_part<B: Allocator>(part: ClausePart, out: &mut Vec<u8, B>) -> Result<(), AllocError>
    ensures { OnOk result (out.new.items ≡ out.old.items ++ clause_part_text (clause_part_seen part)) }
{
    match part {
        ClausePart::Head => out.extend_from_slice(b"head"),
        ClausePart::Condition(number) => put_with_number(b"condition ", number, out),
        ClausePart::Expression(number) => put_with_number(b"body ", number, out),
        ClausePart::Body => out.extend_from_slice(b"body"),
    }
}

impl<'a, A: Allocator> NoFun<'a, A> {
    /// Appends the line that says so, without a line feed.
    ///
    /// # Errors
    ///
    /// Refused memory; a part of the line may then be there.
    pub fn write<B: Allocator>(&self, out: &mut Vec<u8, B>) -> Result<(), AllocError>
        ensures { OnOk result (out.new.items ≡ out.old.items ++ no_fun_line (no_fun_seen self.now)) }
    {
        put_with_number(b"no fun: clause ", self.clause, out)?;
        out.extend_from_slice(b": ")?;
        put_part(self.part, out)?;
        out.extend_from_slice(b": ")?;
        put_reason(self.reason, out)
    }
}
