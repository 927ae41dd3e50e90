// A head, held against the list that is matched, up to where they differ.
ghost use Rattle.std.specs.Prelude.{◌≡◌, IfOk, length, ◌==◌};
ghost use Rattle.std.specs.Option.{option_map};
ghost use Rattle.def_term.specs.Tree.{count};
ghost use Rattle.tn_guard.specs.Views.{list_view_seen};
ghost use Rattle.tn_head.specs.Matching.{bound_on, bound_each, bound_at};
ghost use Rattle.tn_mismatch.specs.Views.{mismatches_seen};
ghost use Rattle.tn_mismatch.specs.Walks.{IsWalk, mismatch_after, mismatch_among, mismatch_at};
ghost use Rattle.tn_mismatch.specs.Walks.{first_mismatch_of, of_length};

use crate::bindings::value_of;
use crate::mismatch::{HeadPart, Mismatch};
use bumpalo::Bump;
use smallvec::SmallVec;
use std::alloc::{AllocError, Allocator};
use tn_guard::{ListView, Value};
use tn_head::{SomeBindings, bind_on};
use tn_spec::{Head, Pattern};

/// Where the head first differs from the list of these elements, left to right and depth first ("Match Specifications
/// in Erlang", MatchHead); None where it matches. An error is refused memory.
pub fn first_mismatch<'a, A: Allocator>(
    arena: &'a Bump<A>,
    head: &'a Head<A>,
    list: ListView<'a, A>,
) -> Result<Option<Mismatch<'a, A>>, AllocError>
    ensures { IfOk result (λ m. mismatches_seen m ≡ first_mismatch_of head.now list.entry) }
{
    match head {
        Head::Variable(_) => Ok(None),
        Head::Anything => Ok(None),
        Head::List(patterns) => {
            if patterns.len() != list.len() {
                let part = HeadPart::List(patterns.len());
                Ok(Some(Mismatch::here(part, list.list())))
            } else {
                let mut bound = SmallVec::new(arena);
                Ok(mismatch_in(arena, patterns, list, &mut bound)?)
            }
        }
    }
}

/// Where the pattern first differs from the value, with what is bound already; binds the pattern's other variables.
#[cycle(mismatch)]
fn mismatch_on<'a, A: Allocator>(
    arena: &'a Bump<A>,
    pattern: &'a Pattern<A>,
    value: Value<'a, A>,
    bound: &mut SomeBindings<'a, A, &'a Bump<A>>,
) -> Result<Option<Mismatch<'a, A>>, AllocError>
    ensures { IfOk result (λ m. IsWalk m (mismatch_after pattern.now value.entry bound.old.items)
        (bound_on pattern.now value.entry bound.old.items) bound.new.items) }
{
    match pattern {
        Pattern::Variable(n) => Ok(meet(*n, value, bound)?),
        Pattern::Anything => Ok(None),
        Pattern::Only(term) => {
            if value.is_term(term) {
                Ok(None)
            } else {
                Ok(Some(Mismatch::here(HeadPart::Term(term), value)))
            }
        }
        Pattern::Tuple(patterns) => match parts_of_length(value.tuple_parts(), patterns.len()) {
            Some(parts) => Ok(mismatch_in(arena, patterns, parts, bound)?),
            None => Ok(Some(Mismatch::here(HeadPart::Tuple(patterns.len()), value))),
        },
        Pattern::List(patterns) => match parts_of_length(value.list_parts(), patterns.len()) {
            Some(parts) => Ok(mismatch_in(arena, patterns, parts, bound)?),
            None => Ok(Some(Mismatch::here(HeadPart::List(patterns.len()), value))),
        },
    }
}

/// Where the first pattern that differs from its value does so; there are as many of the one as of the other.
#[cycle(mismatch)]
fn mismatch_in<'a, A: Allocator>(
    arena: &'a Bump<A>,
    patterns: &'a Vec<Pattern<A>, A>,
    parts: ListView<'a, A>,
    bound: &mut SomeBindings<'a, A, &'a Bump<A>>,
) -> Result<Option<Mismatch<'a, A>>, AllocError>
    requires { length patterns.now.items ≡ count (list_view_seen parts) }
    ensures { IfOk result (λ m. IsWalk m (mismatch_among patterns.now parts.entry bound.old.items)
        (bound_each patterns.now parts.entry bound.old.items) bound.new.items) }
{
    for i in 0..patterns.len() {
        if let Some(mismatch) = mismatch_on(arena, &patterns[i], parts.at(i), bound)? {
            return Ok(Some(mismatch.in_element(arena, i)?));
        }
    }
    Ok(None)
}

/// These elements, where there are so many.
fn parts_of_length<'a, A: Allocator>(
    parts: Option<ListView<'a, A>>,
    size: usize,
) -> Option<ListView<'a, A>>
    ensures { option_map list_view_seen result ≡ of_length size (option_map list_view_seen parts.entry) }
{
    match parts {
        Some(parts) => {
            if parts.len() == size {
                Some(parts)
            } else {
                None
            }
        }
        None => None,
    }
}

/// A variable that met another value differs from this one; one that met none is bound to it.
fn meet<'a, A: Allocator>(
    number: u16,
    value: Value<'a, A>,
    bound: &mut SomeBindings<'a, A, &'a Bump<A>>,
) -> Result<Option<Mismatch<'a, A>>, AllocError>
    ensures { IfOk result (λ m. IsWalk m (mismatch_at number value.entry bound.old.items)
        (bound_at number value.entry bound.old.items) bound.new.items) }
{
    match value_of(bound.as_slice(), number) {
        Some(first) => {
            if first.same(value) {
                Ok(None)
            } else {
                let part = HeadPart::Bound {
                    number,
                    value: first,
                };
                Ok(Some(Mismatch::here(part, value)))
            }
        }
        None => {
            let variable: Pattern<A> = Pattern::Variable(number);
            bind_on(&variable, value, bound)?;
            Ok(None)
        }
    }
}
