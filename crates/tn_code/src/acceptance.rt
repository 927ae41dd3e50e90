// A test of instructions that takes no memory.
ghost use Rattle.std.specs.Prelude.{◌≡◌, ◌<◌, length, is_some, IfSome};
ghost use Rattle.def_machine.specs.Acceptance.{is_checked, is_fine, is_set_before, sets_before, all_of_them};
ghost use Rattle.def_machine.specs.Validity.{reads, has_its_number, is_between, is_performed_by};
ghost use Rattle.def_spec.specs.Laws.{numbers_of_function};
ghost use Rattle.tn_code.specs.Codes.{code_seen};
ghost use Rattle.tn_code.specs.Views.{instruction_of, instructions_of};
ghost use Rattle.tn_spec.specs.Views.{func_of, action_of};

use crate::code::Code;
use crate::instr::Instr;
use crate::ways::ways_of;
use std::alloc::Allocator;
use tn_spec::{Action, Func};

/// Whether the function has so many arguments.
fn takes(func: Func, count: usize) -> bool
    ensures { result ≡ is_between (numbers_of_function (func_of func)) count }
{
    match func {
        Func::OwnPid => count == 0,
        Func::OwnNode => count <= 1,
        Func::Element
        | Func::Add
        | Func::Subtract
        | Func::Multiply
        | Func::Divide
        | Func::Remainder
        | Func::BitAnd
        | Func::BitOr
        | Func::BitXor
        | Func::Greater
        | Func::GreaterOrEqual
        | Func::Less
        | Func::LessOrEqual
        | Func::Equal
        | Func::ExactlyEqual
        | Func::NotEqual
        | Func::ExactlyNotEqual
        | Func::JustOneOf => count == 2,
        Func::AllOf | Func::OneOf => 1 <= count,
        _ => count == 1,
    }
}

/// Whether the action acts on so many registers; `trace` has an instruction of its own.
fn acts_on(action: Action, count: usize) -> bool
    ensures { result ≡ is_performed_by (action_of action) count }
{
    match action {
        Action::Message | Action::Silent => count == 1,
        Action::ReturnTrace | Action::ExceptionTrace | Action::Caller => count == 0,
        Action::EnableTrace | Action::DisableTrace => 1 <= count && count <= 2,
        Action::Trace => false,
    }
}

/// Whether its function or action has its number of registers.
fn has_its_number<A: Allocator>(instr: &Instr<A>) -> bool
    ensures { result ≡ has_its_number (instruction_of instr.now) }
{
    match instr {
        Instr::Apply { func, from, .. } => takes(*func, from.len()),
        Instr::Perform { action, from, .. } => acts_on(*action, from.len()),
        _ => true,
    }
}

/// Whether the instruction at `setter` sets the register and no way leads past it to `reader` or before.
fn sets_before<A: Allocator>(
    items: &[Instr<A>],
    setter: usize,
    reader: usize,
    register: usize,
) -> bool
    requires order { setter < reader }
    requires inside { reader < length items.now }
    ensures { result ≡ sets_before (instructions_of items.now) reader register setter }
{
    for place in 0..setter + 1 {
        if !ways_of(&items[place]).stop_at(setter, reader, register, place) {
            return false;
        }
    }
    true
}

/// Whether the register is set before the instruction at `reader`.
fn is_set_before<A: Allocator>(items: &[Instr<A>], reader: usize, register: usize) -> bool
    requires { reader < length items.now }
    ensures { result ≡ is_set_before (instructions_of items.now) reader register }
{
    for setter in 0..reader {
        if sets_before(items, setter, reader, register) {
            return true;
        }
    }
    false
}

/// Whether each of the registers is set before it.
fn are_set_before<A: Allocator>(items: &[Instr<A>], reader: usize, registers: &[usize]) -> bool
    requires { reader < length items.now }
    ensures { result ≡ all_of_them (is_set_before (instructions_of items.now) reader) registers.now }
{
    for register in registers {
        if !is_set_before(items, reader, *register) {
            return false;
        }
    }
    true
}

/// Whether each register that the instruction reads is set before it.
fn reads_are_set<A: Allocator>(items: &[Instr<A>], here: usize, instr: &Instr<A>) -> bool
    requires { here < length items.now }
    ensures { result ≡ all_of_them (is_set_before (instructions_of items.now) here) (reads (instruction_of instr.now)) }
{
    match instr {
        Instr::TakeElement { from, .. } => is_set_before(items, here, *from),
        Instr::TakeRest { from, .. } => is_set_before(items, here, *from),
        Instr::TestKind { from, .. } => is_set_before(items, here, *from),
        Instr::TestLength { from, .. } => is_set_before(items, here, *from),
        Instr::TestEqual { left, right, .. } => {
            is_set_before(items, here, *left) && is_set_before(items, here, *right)
        }
        Instr::Build { from, .. } => are_set_before(items, here, from.as_slice()),
        Instr::Apply { from, .. } => are_set_before(items, here, from.as_slice()),
        Instr::Perform { from, .. } => are_set_before(items, here, from.as_slice()),
        Instr::ChangeFlags {
            process,
            off,
            on,
            ..
        } => { are_set_before(items, here, &[*process, *off, *on]) }
        _ => true,
    }
}

/// Whether the instruction at the place has its number of registers, leads forward, and reads what is set.
fn is_fine<A: Allocator>(items: &[Instr<A>], place: usize, instr: &Instr<A>) -> bool
    requires { place < length items.now }
    ensures { result ≡ is_fine (instructions_of items.now) place (instruction_of instr.now) }
{
    has_its_number(instr)
        && ways_of(instr).lead_forward(items.len(), place)
        && reads_are_set(items, place, instr)
}

/// Whether there is an instruction, and each is fine.
fn is_checked<A: Allocator>(items: &[Instr<A>]) -> bool
    ensures { result ≡ is_checked (instructions_of items.now) }
{
    for place in 0..items.len() {
        if !is_fine(items, place, &items[place]) {
            return false;
        }
    }
    0 < items.len()
}

/// The code of these instructions, where the test accepts them: the last one ends, jumps go forward and
/// inside, functions have their number of registers, and before each read an instruction sets the
/// register that no way leads past. It takes no memory.
pub fn check<A: Allocator>(items: Vec<Instr<A>, A>) -> Option<Code<A>>
    ensures accepted { is_some result ≡ is_checked (instructions_of items.items) }
    ensures code { IfSome result (λ c. code_seen c ≡ instructions_of items.items) }
{
    if is_checked(items.as_slice()) {
        Some(Code::of(items))
    } else {
        None
    }
}
