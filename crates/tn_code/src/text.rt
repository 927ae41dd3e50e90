// The text of code, for tests and for who reads it.
ghost use Rattle.std.specs.Prelude.{◌≡◌, OnOk, OnErr};
ghost use Rattle.tn_text.specs.Writes.{Grows};

use crate::code::Code;
use crate::instr::{Instr, Kind, OnFault};
use crate::names::{action_name, dialect_name, func_name, instr_name};
use std::alloc::{AllocError, Allocator};
use tn_spec::{Action, Dialect, Func};
use tn_term::Term;
use tn_text::{write_decimal, write_term};

/// Appends a line for each instruction: its place from 0, what it does, and its operands. `r4` is register
/// 4, and after `else` stands the place where it goes on. After an `Err` the vector is as it was.
pub fn dump<A: Allocator, B: Allocator>(
    code: &Code<A>,
    out: &mut Vec<u8, B>,
) -> Result<(), AllocError>
    ensures ok { OnOk result (Grows out.old.items out.new.items) }
    ensures err { OnErr result (out.new.items ≡ out.old.items) }
{
    let len = out.len();
    let done = put_code(code.instructions(), out);
    if done.is_err() {
        out.truncate(len);
    }
    done
}

/// Appends a line for each instruction; after an `Err` a part of them may stand there.
fn put_code<A: Allocator, B: Allocator>(
    items: &[Instr<A>],
    out: &mut Vec<u8, B>,
) -> Result<(), AllocError>
    ensures { Grows out.old.items out.new.items }
{
    for place in 0..items.len() {
        write_decimal(place, out)?;
        put_instr(&items[place], out)?;
        put_text("\n", out)?;
    }
    Ok(())
}

/// Appends a text.
fn put_text<B: Allocator>(text: &str, out: &mut Vec<u8, B>) -> Result<(), AllocError>
    ensures { Grows out.old.items out.new.items }
{
    out.extend_from_slice(text.as_bytes())
}

/// Appends a blank and a number.
fn put_operand<B: Allocator>(number: usize, out: &mut Vec<u8, B>) -> Result<(), AllocError>
    ensures { Grows out.old.items out.new.items }
{
    put_text(" ", out)?;
    write_decimal(number, out)
}

/// Appends a register.
fn put_register<B: Allocator>(register: usize, out: &mut Vec<u8, B>) -> Result<(), AllocError>
    ensures { Grows out.old.items out.new.items }
{
    put_text(" r", out)?;
    write_decimal(register, out)
}

/// Appends some registers.
fn put_registers<B: Allocator>(registers: &[usize], out: &mut Vec<u8, B>) -> Result<(), AllocError>
    ensures { Grows out.old.items out.new.items }
{
    for register in registers {
        put_register(*register, out)?;
    }
    Ok(())
}

/// Appends the place where an instruction goes on.
fn put_place<B: Allocator>(place: usize, out: &mut Vec<u8, B>) -> Result<(), AllocError>
    ensures { Grows out.old.items out.new.items }
{
    put_text(" else ", out)?;
    write_decimal(place, out)
}

/// Appends where a fault goes on.
fn put_on_fault<B: Allocator>(on_fault: OnFault, out: &mut Vec<u8, B>) -> Result<(), AllocError>
    ensures { Grows out.old.items out.new.items }
{
    match on_fault {
        OnFault::Place(place) => Ok(put_place(place, out)?),
        OnFault::Exit => Ok(put_text(" else 'EXIT'", out)?),
    }
}

/// Appends a kind.
fn put_kind<B: Allocator>(kind: Kind, out: &mut Vec<u8, B>) -> Result<(), AllocError>
    ensures { Grows out.old.items out.new.items }
{
    match kind {
        Kind::Tuple => Ok(put_text(" tuple", out)?),
        Kind::List => Ok(put_text(" list", out)?),
    }
}

/// Appends a blank and a word.
fn put_word<B: Allocator>(word: &str, out: &mut Vec<u8, B>) -> Result<(), AllocError>
    ensures { Grows out.old.items out.new.items }
{
    put_text(" ", out)?;
    put_text(word, out)
}

/// Appends the register that is set, and the one that is read.
fn put_pair<B: Allocator>(to: usize, from: usize, out: &mut Vec<u8, B>) -> Result<(), AllocError>
    ensures { Grows out.old.items out.new.items }
{
    put_register(to, out)?;
    put_register(from, out)
}

/// Appends the register that is set, and those that are read.
fn put_all<B: Allocator>(to: usize, from: &[usize], out: &mut Vec<u8, B>) -> Result<(), AllocError>
    ensures { Grows out.old.items out.new.items }
{
    put_register(to, out)?;
    put_registers(from, out)
}

/// Appends the operands of a constant.
fn put_constant<A: Allocator, B: Allocator>(
    to: usize,
    term: &Term<A>,
    out: &mut Vec<u8, B>,
) -> Result<(), AllocError>
    ensures { Grows out.old.items out.new.items }
{
    put_register(to, out)?;
    put_text(" ", out)?;
    Ok(write_term(term, out)?)
}

/// Appends the operands of an element.
fn put_element<B: Allocator>(
    to: usize,
    from: usize,
    index: usize,
    place: usize,
    out: &mut Vec<u8, B>,
) -> Result<(), AllocError>
    ensures { Grows out.old.items out.new.items }
{
    put_pair(to, from, out)?;
    put_operand(index, out)?;
    put_place(place, out)
}

/// Appends two registers, and where to go on.
fn put_pair_else<B: Allocator>(
    one: usize,
    other: usize,
    place: usize,
    out: &mut Vec<u8, B>,
) -> Result<(), AllocError>
    ensures { Grows out.old.items out.new.items }
{
    put_pair(one, other, out)?;
    put_place(place, out)
}

/// Appends the operands of a test of a kind.
fn put_kind_test<B: Allocator>(
    from: usize,
    kind: Kind,
    place: usize,
    out: &mut Vec<u8, B>,
) -> Result<(), AllocError>
    ensures { Grows out.old.items out.new.items }
{
    put_register(from, out)?;
    put_kind(kind, out)?;
    put_place(place, out)
}

/// Appends the operands of a test of a length.
fn put_length_test<B: Allocator>(
    from: usize,
    length: usize,
    place: usize,
    out: &mut Vec<u8, B>,
) -> Result<(), AllocError>
    ensures { Grows out.old.items out.new.items }
{
    put_register(from, out)?;
    put_operand(length, out)?;
    put_place(place, out)
}

/// Appends what is built, and of what.
fn put_build<B: Allocator>(
    kind: Kind,
    to: usize,
    from: &[usize],
    out: &mut Vec<u8, B>,
) -> Result<(), AllocError>
    ensures { Grows out.old.items out.new.items }
{
    put_kind(kind, out)?;
    put_all(to, from, out)
}

/// Appends which function is applied, and to what.
fn put_apply<B: Allocator>(
    func: Func,
    to: usize,
    from: &[usize],
    on_fault: OnFault,
    out: &mut Vec<u8, B>,
) -> Result<(), AllocError>
    ensures { Grows out.old.items out.new.items }
{
    put_word(func_name(func), out)?;
    put_all(to, from, out)?;
    put_on_fault(on_fault, out)
}

/// Appends which action is performed, and on what.
fn put_perform<B: Allocator>(
    dialect: Dialect,
    action: Action,
    to: usize,
    from: &[usize],
    out: &mut Vec<u8, B>,
) -> Result<(), AllocError>
    ensures { Grows out.old.items out.new.items }
{
    put_word(dialect_name(dialect), out)?;
    put_word(action_name(action), out)?;
    put_all(to, from, out)
}

/// Appends the registers of a change of flags.
fn put_change<B: Allocator>(
    to: usize,
    from: &[usize],
    on_fault: OnFault,
    out: &mut Vec<u8, B>,
) -> Result<(), AllocError>
    ensures { Grows out.old.items out.new.items }
{
    put_all(to, from, out)?;
    put_on_fault(on_fault, out)
}

/// Appends the operands of an instruction.
fn put_operands<A: Allocator, B: Allocator>(
    instr: &Instr<A>,
    out: &mut Vec<u8, B>,
) -> Result<(), AllocError>
    ensures { Grows out.old.items out.new.items }
{
    match instr {
        Instr::LoadConstant { to, term } => Ok(put_constant(*to, term, out)?),
        Instr::LoadList { to } => Ok(put_register(*to, out)?),
        Instr::LoadOwnPid { to } => Ok(put_register(*to, out)?),
        Instr::LoadCaller { to } => Ok(put_register(*to, out)?),
        Instr::TakeElement {
            to,
            from,
            index,
            place,
        } => Ok(put_element(*to, *from, *index, *place, out)?),
        Instr::TakeRest { to, from, place } => Ok(put_pair_else(*to, *from, *place, out)?),
        Instr::TestKind { from, kind, place } => Ok(put_kind_test(*from, *kind, *place, out)?),
        Instr::TestLength {
            from,
            length,
            place,
        } => Ok(put_length_test(*from, *length, *place, out)?),
        Instr::TestEqual { left, right, place } => Ok(put_pair_else(*left, *right, *place, out)?),
        Instr::Jump { place } => Ok(put_operand(*place, out)?),
        Instr::Build { kind, to, from } => Ok(put_build(*kind, *to, from.as_slice(), out)?),
        Instr::Apply {
            func,
            to,
            from,
            on_fault,
        } => Ok(put_apply(*func, *to, from.as_slice(), *on_fault, out)?),
        Instr::Perform {
            dialect,
            action,
            to,
            from,
        } => Ok(put_perform(*dialect, *action, *to, from.as_slice(), out)?),
        Instr::ChangeFlags {
            to,
            process,
            off,
            on,
            on_fault,
        } => Ok(put_change(*to, &[*process, *off, *on], *on_fault, out)?),
        Instr::EndMatch => Ok(()),
        Instr::EndNoMatch => Ok(()),
    }
}

/// Appends what an instruction does, and its operands.
fn put_instr<A: Allocator, B: Allocator>(
    instr: &Instr<A>,
    out: &mut Vec<u8, B>,
) -> Result<(), AllocError>
    ensures { Grows out.old.items out.new.items }
{
    put_word(instr_name(instr), out)?;
    put_operands(instr, out)
}
