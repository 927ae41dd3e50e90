// The words of a fun for the clauses of its specification.
ghost use Rattle.std.specs.Prelude.{◌≡◌, ℕ, List, slice_get, max};
ghost use Rattle.std.specs.Option.{option_map};
ghost use Rattle.def_fun.specs.Translation.{alternatives_of};
ghost use Rattle.tn_fun.specs.Trees.{fun_row_seen};
ghost use Rattle.tn_fun.specs.Clauses.{guards_seen};
ghost use Rattle.tn_fun_words.specs.Views.{clause_words_seen, all_words_seen};

use crate::fun_words::FunWords;
use std::alloc::Allocator;
use tn_fun::{Clause, Expr};

/// The words of a fun for one clause of its specification: the clause of the fun, and the conditions of its guard.
#[derive_where(Clone, Copy)]
pub struct ClauseWords<'a, 'f, A: Allocator> {
    pub(crate) fun: &'a FunWords<'f, A>,
    pub(crate) clause: &'a Clause<A>,
    pub(crate) conditions: &'a [Expr<A>],
}

/// The conditions of one of the guards of a clause; none of a clause without guards.
fn alternative<A: Allocator>(guards: &Vec<Vec<Expr<A>, A>, A>, index: usize) -> Option<&[Expr<A>]>
    ensures { (text : List ℕ) → option_map (λ es. fun_row_seen text es.now) result
        ≡ slice_get (alternatives_of (guards_seen text guards.now.items)) index }
{
    if guards.is_empty() {
        if index == 0 {
            return Some(&[]);
        }
        return None;
    }
    if index >= guards.len() {
        return None;
    }
    Some(guards[index].as_slice())
}

/// How many clauses of the specification a clause with so many guards is.
fn clause_count(guards: usize) -> usize
    ensures { result ≡ max 1 guards }
{
    if guards == 0 {
        return 1;
    }
    guards
}

impl<'a, A: Allocator + Copy> FunWords<'a, A> {
    /// The words for the clause of the specification after so many, where there is one.
    pub(crate) fn clause_words(&self, index: usize) -> Option<ClauseWords<'_, 'a, A>>
        ensures { option_map clause_words_seen result ≡ slice_get (all_words_seen self.now) index }
    {
        let clauses = &self.clauses;
        let mut before = index;
        for i in 0..clauses.len() {
            let clause = &clauses[i];
            match alternative(&clause.guards, before) {
                Some(conditions) => {
                    return Some(ClauseWords {
                        fun: self,
                        clause,
                        conditions,
                    });
                }
                None => before = before.saturating_sub(clause_count(clause.guards.len())),
            }
        }
        None
    }
}
