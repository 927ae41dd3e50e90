// Terms that are the same but for pids.
ghost use Rattle.std.specs.Prelude.{IfOk, map};
ghost use Rattle.def_renaming.specs.Renaming.{with_term_pairs, with_element_pairs, with_prefix_pairs};
ghost use Rattle.tn_renaming.specs.Pairs.{LeavesPairs, pairs_seen, lent_term_seen};
ghost use Rattle.tn_term.specs.Views.{tree_of, trees_of};

use crate::pairs::{PidPair, join};
use std::alloc::{AllocError, Allocator};
use tn_term::Term;

/// Adds the pairs that make the first term the second. Says whether there are such.
#[cycle(matching)]
fn match_term<A: Allocator, B: Allocator, C: Allocator>(
    pairs: &mut Vec<PidPair, A>,
    there: &Term<B>,
    here: &Term<C>,
) -> Result<bool, AllocError>
    ensures { let old = pairs_seen pairs.old in
        let given = with_term_pairs old (tree_of there.now) (tree_of here.now) in
        IfOk result (λ b. LeavesPairs old given b (pairs_seen pairs.new)) }
{
    match (there, here) {
        (Term::Int(m), Term::Int(n)) => Ok(*m == *n),
        (Term::Atom(r), Term::Atom(s)) => Ok(r.text() == s.text()),
        (Term::Pid(m), Term::Pid(n)) => join(pairs, *m, *n),
        (Term::Tuple(v), Term::Tuple(w)) => match_terms(pairs, v.as_slice(), w.as_slice()),
        (Term::List(v), Term::List(w)) => match_terms(pairs, v.as_slice(), w.as_slice()),
        _ => Ok(false),
    }
}

/// The same for the elements of two tuples or lists.
#[cycle(matching)]
fn match_terms<A: Allocator, B: Allocator, C: Allocator>(
    pairs: &mut Vec<PidPair, A>,
    there: &[Term<B>],
    here: &[Term<C>],
) -> Result<bool, AllocError>
    ensures { let old = pairs_seen pairs.old in
        let given = with_element_pairs old (trees_of there.now) (trees_of here.now) in
        IfOk result (λ b. LeavesPairs old given b (pairs_seen pairs.new)) }
{
    if there.len() != here.len() {
        return Ok(false);
    }
    for i in 0..there.len() {
        let found = match_term(pairs, &there[i], &here[i])?;
        if !found {
            return Ok(false);
        }
    }
    Ok(true)
}

/// The same for the messages of a group and the first ones of a list, which may have more.
pub(crate) fn match_beginning<A: Allocator, B: Allocator, C: Allocator>(
    pairs: &mut Vec<PidPair, A>,
    there: &[&Term<B>],
    here: &[&Term<C>],
) -> Result<bool, AllocError>
    ensures { let old = pairs_seen pairs.old in
        let given = with_prefix_pairs old (map lent_term_seen there.now) (map lent_term_seen here.now) in
        IfOk result (λ b. LeavesPairs old given b (pairs_seen pairs.new)) }
{
    if here.len() < there.len() {
        return Ok(false);
    }
    for i in 0..there.len() {
        let found = match_term(pairs, there[i], here[i])?;
        if !found {
            return Ok(false);
        }
    }
    Ok(true)
}
