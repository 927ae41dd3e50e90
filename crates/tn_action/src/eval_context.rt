// What the expressions of one clause are evaluated in.
ghost use Rattle.std.specs.Prelude.{◌≡◌, IfOk, map, pos};
ghost use Rattle.std.specs.Option.{option_map};
ghost use Rattle.def_term.specs.Tree.{int, atom, list, none, more};
ghost use Rattle.def_spec.specs.Expressions.{caller_term};
ghost use Rattle.tn_guard.specs.Views.{value_seen};
ghost use Rattle.tn_head.specs.Views.{binding_seen, bindings_seen};
ghost use Rattle.tn_action.specs.Views.{context_seen};
ghost use Rattle.tn_action.specs.Parts.{list_bound, settled_in};

use crate::context::Context;
use bumpalo::Bump;
use bumpalo::collections::into_bump_slice;
use std::alloc::{AllocError, Allocator};
use tn_guard::{AtomConst, Value};
use tn_head::{Binding, Bindings};
use tn_spec::Dialect;
use tn_term::Atom;

/// Where a fault is a fault of the whole, and where it is `'EXIT'`.
#[derive(Clone, Copy)]
pub enum Position {
    Condition,
    Body,
}

/// What the expressions of one clause are evaluated in.
#[derive_where(Clone, Copy)]
pub struct EvalContext<'a, 'b, A: Allocator + Copy> {
    /// For the effects.
    pub alloc: A,
    /// For the tuples and lists that expressions make.
    pub arena: &'a Bump<A>,
    pub dialect: Dialect,
    pub part: Position,
    pub bindings: &'b Bindings<'a, A, &'a Bump<A>>,
    pub context: &'b Context<'a, 'b, A>,
}

impl<'a, 'b, A: Allocator + Copy> EvalContext<'a, 'b, A> {
    /// `'$$'`: the list of the values that are bound, by rising number. An error is refused memory.
    pub(crate) fn all_bound(&self) -> Result<Value<'a, A>, AllocError>
        ensures { IfOk result (λ v. value_seen v ≡ list_bound (bindings_seen self.now.bindings.now)) }
    {
        match self.bindings {
            Bindings::Whole(_, list) => Ok(list_of_one(list.list(), self.arena)?),
            Bindings::Each(bindings) => Ok(list_of_bound(bindings.as_slice(), self.arena)?),
        }
    }

    /// `{caller}`: the function of the frame beneath, or `undefined`. An error is refused memory.
    pub fn caller(&self) -> Result<Value<'a, A>, AllocError>
        ensures { IfOk result (λ v. value_seen v ≡ caller_term (context_seen self.now.context.now).caller_mfa) }
    {
        let Some(mfa) = self.context.caller else {
            return Ok(Value::AtomConst(AtomConst::Undefined));
        };
        let parts = [
            name_value(&mfa.module),
            name_value(&mfa.name),
            arity_value(mfa.arity),
        ];
        Ok(Value::Tuple(self.arena.try_alloc_slice_copy(&parts)?))
    }

    /// The value of a call: in a body `'EXIT'` where it faults.
    pub(crate) fn settle(&self, value: Option<Value<'a, A>>) -> Option<Value<'a, A>>
        ensures { option_map value_seen result ≡ settled_in self.now.part (option_map value_seen value.entry) }
    {
        match self.part {
            Position::Condition => value,
            Position::Body => Some(value.unwrap_or(Value::AtomConst(AtomConst::Exit))),
        }
    }
}

/// The list of this one value.
fn list_of_one<'a, A: Allocator>(
    value: Value<'a, A>,
    arena: &'a Bump<A>,
) -> Result<Value<'a, A>, AllocError>
    ensures { IfOk result (λ v. value_seen v ≡ list (more (value_seen value.entry) none)) }
{
    Ok(Value::List(arena.try_alloc_slice_copy(&[value])?))
}

/// The list of the values that are bound, by rising number.
fn list_of_bound<'a, A: Allocator>(
    bindings: &[Binding<'a, A>],
    arena: &'a Bump<A>,
) -> Result<Value<'a, A>, AllocError>
    ensures { IfOk result (λ v. value_seen v ≡ list_bound (map binding_seen bindings.now)) }
{
    let mut values = Vec::with_capacity(arena, bindings.len())?;
    for binding in bindings {
        values.push(binding.value)?;
    }
    Ok(Value::List(into_bump_slice(values)))
}

/// The atom.
fn name_value<A: Allocator>(name: &Atom<A>) -> Value<'_, A>
    ensures { value_seen result ≡ atom name.now }
{
    Value::Name(name)
}

/// A number of parameters.
fn arity_value<'a, A: Allocator>(arity: u8) -> Value<'a, A>
    ensures { value_seen result ≡ int (pos arity) }
{
    Value::Int(i64::from(arity))
}
