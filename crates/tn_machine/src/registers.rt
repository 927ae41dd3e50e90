// Registers, and the values in them.
ghost use Rattle.std.specs.Prelude.{◌≡◌, ◌<◌, IfOk, Some, length, map, true};
ghost use Rattle.std.specs.Option.{option_map};
ghost use Rattle.def_machine.specs.Machine.{has_kind, parts, terms_in, with_register};
ghost use Rattle.def_machine.specs.Validity.{Each};
ghost use Rattle.def_spec.specs.Functions.{nth};
ghost use Rattle.def_term.specs.Tree.{count};
ghost use Rattle.tn_code.specs.Views.{shape_kind_seen};
ghost use Rattle.tn_guard.specs.Views.{value_seen, list_view_seen};
ghost use Rattle.tn_machine.specs.Views.{IsSetIn, parts_in, registers_seen};

use bumpalo::Bump;
use smallvec::SmallVec;
use std::alloc::{AllocError, Allocator};
use tn_code::Kind;
use tn_guard::{ListView, Value};

/// The registers of a run, each with its value where it is set, in an arena.
pub type Registers<'a, A> = Vec<Option<Value<'a, A>>, &'a Bump<A>>;

/// The values of some registers: a few of them lie in the value itself, more in an arena.
pub type SomeValues<'a, A> = SmallVec<Value<'a, A>, 4, &'a Bump<A>>;

/// The value in a register that is set.
pub fn value_in<'a, A: Allocator>(
    registers: &[Option<Value<'a, A>>],
    register: usize,
) -> Value<'a, A>
    requires { IsSetIn registers.now register }
    ensures { registers_seen registers.now register ≡ Some (value_seen result) }
{
    match registers[register] {
        Some(value) => value,
        None => unreachable!(),
    }
}

/// The values in some registers, which are set.
pub fn values_in<'a, A: Allocator + Copy>(
    arena: &'a Bump<A>,
    registers: &[Option<Value<'a, A>>],
    from: &[usize],
) -> Result<SomeValues<'a, A>, AllocError>
    requires { Each (λ r. IsSetIn registers.now r) from.now }
    ensures { IfOk result (λ vs. terms_in (registers_seen registers.now) from.now ≡ Some (map value_seen vs.items)) }
{
    let mut values = SmallVec::with_capacity(arena, from.len())?;
    for register in from {
        values.push(value_in(registers, *register))?;
    }
    Ok(values)
}

/// Sets a register.
pub fn put<'a, A: Allocator>(registers: &mut [Option<Value<'a, A>>], to: usize, value: Value<'a, A>)
    requires { to < length registers.old }
    ensures { registers_seen registers.new ≡ with_register to (value_seen value.entry) (registers_seen registers.old) }
{
    registers[to] = Some(value);
}

/// The elements of a tuple or list; None of any other term.
fn parts_of<'a, A: Allocator>(value: Value<'a, A>) -> Option<ListView<'a, A>>
    ensures { option_map list_view_seen result ≡ parts_in (value_seen value.entry) }
{
    match value.tuple_parts() {
        Some(parts) => Some(parts),
        None => value.list_parts(),
    }
}

/// The element with this index from 0, where there is one.
pub fn element<'a, A: Allocator>(value: Value<'a, A>, index: usize) -> Option<Value<'a, A>>
    ensures { option_map value_seen result ≡ nth (parts (value_seen value.entry)) index }
{
    let parts = parts_of(value)?;
    if index < parts.len() {
        Some(parts.at(index))
    } else {
        None
    }
}

/// How many elements there are; a term that is no tuple or list has none.
pub fn count<A: Allocator>(value: Value<'_, A>) -> usize
    ensures { result ≡ count (parts (value_seen value.entry)) }
{
    match parts_of(value) {
        Some(parts) => parts.len(),
        None => 0,
    }
}

/// Whether the term is of the kind.
pub fn is_of_kind<A: Allocator>(value: Value<'_, A>, kind: Kind) -> bool
    ensures { result ≡ has_kind (shape_kind_seen kind) (value_seen value.entry) }
{
    match kind {
        Kind::Tuple => value.tuple_parts().is_some(),
        Kind::List => value.list_parts().is_some(),
    }
}
