// The search for pairs of pids.
ghost use Rattle.std.specs.Prelude.{◌≡◌, IfOk, [], ◌∷◌, map, option_map, option_to_list};
ghost use Rattle.def_renaming.specs.Renaming.{with_prefix_pairs, first_renaming};
ghost use Rattle.tn_renaming.specs.Pairs.{LeavesPairs, first_from, pairs_seen, lent_term_seen, lent_terms_seen};

use crate::pairs::PidPair;
use crate::terms::match_beginning;
use std::alloc::{AllocError, Allocator};
use tn_term::Term;

/// Adds the pairs by which each group is the beginning of a list. Says whether there are such.
#[cycle(search)]
fn extend_pairs<A: Allocator, B: Allocator, C: Allocator>(
    pairs: &mut Vec<PidPair, A>,
    groups: &[Vec<&Term<B>, A>],
    lists: &[Vec<&Term<C>, A>],
) -> Result<bool, AllocError>
    ensures { let old = pairs_seen pairs.old in
        let first = first_from (map lent_terms_seen groups.now) (map lent_terms_seen lists.now) (old ∷ []) in
        IfOk result (λ b. LeavesPairs old first b (pairs_seen pairs.new)) }
{
    let Some((group, rest)) = groups.split_first() else {
        return Ok(true);
    };
    let before = pairs.len();
    for list in lists {
        let found = extend_by_list(pairs, group.as_slice(), list.as_slice(), rest, lists)?;
        if found {
            return Ok(true);
        }
        pairs.truncate(before);
    }
    Ok(false)
}

/// Adds the pairs by which a group is the beginning of this list, and each of the rest that of a list.
#[cycle(search)]
fn extend_by_list<A: Allocator, B: Allocator, C: Allocator>(
    pairs: &mut Vec<PidPair, A>,
    group: &[&Term<B>],
    list: &[&Term<C>],
    rest: &[Vec<&Term<B>, A>],
    lists: &[Vec<&Term<C>, A>],
) -> Result<bool, AllocError>
    ensures { let old = pairs_seen pairs.old in
        let given = with_prefix_pairs old (map lent_term_seen group.now) (map lent_term_seen list.now) in
        let first = first_from (map lent_terms_seen rest.now) (map lent_terms_seen lists.now) (option_to_list given) in
        IfOk result (λ b. LeavesPairs old first b (pairs_seen pairs.new)) }
{
    let found = match_beginning(pairs, group, list)?;
    if !found {
        return Ok(false);
    }
    extend_pairs(pairs, rest, lists)
}

/// The first pairs of pids, one to one, by which each group of messages of a trace is the beginning of one of the lists
/// of messages that a run shows; none where there are no such pairs.
///
/// # Errors
///
/// AllocError where memory was refused.
pub fn first_renaming<A: Allocator + Copy, B: Allocator, C: Allocator>(
    alloc: A,
    groups: &[Vec<&Term<B>, A>],
    lists: &[Vec<&Term<C>, A>],
) -> Result<Option<Vec<PidPair, A>>, AllocError>
    ensures { IfOk result (λ o. option_map pairs_seen o ≡
        first_renaming (map lent_terms_seen groups.now) (map lent_terms_seen lists.now)) }
{
    let mut pairs = Vec::new(alloc);
    let found = extend_pairs(&mut pairs, groups, lists)?;
    if found { Ok(Some(pairs)) } else { Ok(None) }
}
