// A head, held against the list that is matched ("Match Specifications in Erlang", "Grammar").
ghost use Rattle.std.specs.Prelude.{◌≡◌, IfOk};
ghost use Rattle.tn_spec.specs.Views.{head_seen};
ghost use Rattle.tn_head.specs.Matching.{IsMatchAnswer, bound_on, bound_each, bound_at, bound_if, list_seen};
ghost use Rattle.tn_head.specs.Answers.{found_seen, bindings_in};

use crate::bindings::{Binding, Bindings, SomeBindings, place_of, value_of};
use smallvec::SmallVec;
use std::alloc::{AllocError, Allocator};
use tn_guard::{ListView, Value};
use tn_spec::{Head, Pattern};

/// The binding with which the head is the list of these elements; None where there is none.
pub fn bind<'a, P: Allocator, A: Allocator, B: Allocator + Copy>(
    alloc: B,
    head: &Head<P>,
    list: ListView<'a, A>,
) -> Result<Option<Bindings<'a, A, B>>, AllocError>
    ensures answer { IfOk result (λ o. IsMatchAnswer (head_seen head.now) (list_seen list.entry) (found_seen o)) }
    ensures computed { IfOk result (λ o. found_seen o ≡ bindings_in head.now list.entry) }
{
    Ok(walk(alloc, head, list)?)
}

/// The binding, as the walk finds it.
fn walk<'a, P: Allocator, A: Allocator, B: Allocator + Copy>(
    alloc: B,
    head: &Head<P>,
    list: ListView<'a, A>,
) -> Result<Option<Bindings<'a, A, B>>, AllocError>
    ensures { IfOk result (λ o. found_seen o ≡ bindings_in head.now list.entry) }
{
    match head {
        Head::Variable(n) => Ok(Some(Bindings::Whole(*n, list))),
        Head::Anything => Ok(Some(Bindings::Each(SmallVec::new(alloc)))),
        Head::List(patterns) => {
            let mut bound = SmallVec::new(alloc);
            if bind_each(patterns, list, &mut bound)? {
                Ok(Some(Bindings::Each(bound)))
            } else {
                Ok(None)
            }
        }
    }
}

/// Whether the pattern is the value, with what is bound already; binds the pattern's other variables.
#[cycle(bind)]
pub fn bind_on<'a, P: Allocator, A: Allocator, B: Allocator + Copy>(
    pattern: &Pattern<P>,
    value: Value<'a, A>,
    bound: &mut SomeBindings<'a, A, B>,
) -> Result<bool, AllocError>
    ensures { IfOk result (λ m. bound_on pattern.now value.entry bound.old.items ≡ bound_if m bound.new.items) }
{
    match pattern {
        Pattern::Variable(n) => Ok(meet(*n, value, bound)?),
        Pattern::Anything => Ok(true),
        Pattern::Only(constant) => Ok(value.is_term(constant)),
        Pattern::Tuple(patterns) => match value.tuple_parts() {
            Some(parts) => Ok(bind_each(patterns, parts, bound)?),
            None => Ok(false),
        },
        Pattern::List(patterns) => match value.list_parts() {
            Some(parts) => Ok(bind_each(patterns, parts, bound)?),
            None => Ok(false),
        },
    }
}

/// Whether each pattern is its value, as many of the one as of the other.
#[cycle(bind)]
fn bind_each<'a, P: Allocator, A: Allocator, B: Allocator + Copy>(
    patterns: &Vec<Pattern<P>, P>,
    parts: ListView<'a, A>,
    bound: &mut SomeBindings<'a, A, B>,
) -> Result<bool, AllocError>
    ensures { IfOk result (λ m. bound_each patterns.now parts.entry bound.old.items ≡ bound_if m bound.new.items) }
{
    if patterns.len() != parts.len() {
        return Ok(false);
    }
    for i in 0..patterns.len() {
        if !bind_on(&patterns[i], parts.at(i), bound)? {
            return Ok(false);
        }
    }
    Ok(true)
}

/// A variable that is bound meets its own value again; another is bound to the value.
fn meet<'a, A: Allocator, B: Allocator + Copy>(
    number: u16,
    value: Value<'a, A>,
    bound: &mut SomeBindings<'a, A, B>,
) -> Result<bool, AllocError>
    ensures { IfOk result (λ m. bound_at number value.entry bound.old.items ≡ bound_if m bound.new.items) }
{
    match value_of(bound.as_slice(), number) {
        Some(first) => Ok(first.same(value)),
        None => {
            let place = place_of(bound.as_slice(), number);
            bound.insert(place, Binding { number, value })?;
            Ok(true)
        }
    }
}
