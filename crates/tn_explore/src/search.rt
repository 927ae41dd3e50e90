// The search through all states, a layer at a time.
ghost use Rattle.std.specs.Prelude.{◌≡◌, ◌+◌, ℕ, List, [], ◌∷◌, ◌++◌, IfOk, IfSome, IfNone, IsTrue, map, true, false};
ghost use Rattle.def_explore.specs.Answers.{RestEntry};
ghost use Rattle.def_run.specs.Run.{moves};
ghost use Rattle.tn_explore.specs.Query.{Query, AdmitsFor};
ghost use Rattle.tn_explore.specs.SearchStates.{FollowsAllBy};
ghost use Rattle.tn_explore.specs.Searches.{IsAt, AreAt, Tries, TriesState, TriesLayer, HaveTried, AnswersEnd};
ghost use Rattle.tn_explore.specs.Searches.{IsLayerFull, Explores, MeetsFullJournal, answer_entries};

use crate::layer::Layer;
use crate::search_state::SearchState;
use indexmap::IndexMap;
use std::alloc::{AllocError, Allocator};
use std::collections::VecDeque;
use std::hash::{BuildHasherDefault, FoldHasher, Hash};

/// How many layers there may be: journals have up to 65,536 picks, and the layer after those is empty.
const LAYERS: usize = 65538;

/// What is kept of the states with which runs end, each once, with the journal that leads to the first of them.
pub type Answers<A, M> = IndexMap<M, Vec<u32, A>, BuildHasherDefault<FoldHasher>, A>;

/// Tries the picks after a state: whether one moved.
fn try_picks<A: Allocator + Copy, S: SearchState<A>>(
    context: &S::Context,
    state: &S,
    picks: &[u32],
    next: &mut Layer<A, S>,
) -> Result<bool, AllocError>
    ensures { IfOk result (λ moved. (a : Query) (depth : ℕ) → AdmitsFor a (S.journal state.now) →
        AreAt S.journal (S.is_of context.now) a (depth + 1) next.old.states.items →
        IsAt S.journal (S.is_of context.now) a depth state.now →
        Tries S.journal (S.is_of context.now) a (depth + 1) state.now picks.now
        next.old.states.items next.new.states.items moved) }
{
    let mut moved = false;
    for pick in picks {
        let mut after = state.share()?;
        if after.advance(context, *pick)? {
            next.add(after)?;
            moved = true;
        }
    }
    Ok(moved)
}

/// Answers a state with which a run ends, where the same was kept of none before.
fn answer<A: Allocator + Copy, S: SearchState<A>>(
    alloc: A,
    state: &S,
    answers: &mut Answers<A, S::Observation>,
) -> Result<(), AllocError>
    ensures { IfOk result (λ _. (x : S.Context) → AnswersEnd S.journal (S.is_of x) state.now
        (answer_entries S.kept_seen answers.old.entries) (answer_entries S.kept_seen answers.new.entries)) }
{
    let observation = state.observe(alloc)?;
    if answers.contains_key(&observation) {
        return Ok(());
    }
    let journal = state.copy_journal(alloc)?;
    answers.insert(observation, journal)?;
    Ok(())
}

/// Tries the picks after a state that are tried. Where none moves, or what is kept is not admitted, it is answered.
fn try_state<A: Allocator + Copy, S: SearchState<A>>(
    context: &S::Context,
    choice: &Choice<'_, S::Filter>,
    state: &S,
    next: &mut Layer<A, S>,
    answers: &mut Answers<A, S::Observation>,
) -> Result<(), AllocError>
    ensures { IfOk result (λ _. (a : Query) (depth : ℕ) → S.filters choice.now.filter.now a →
        FollowsAllBy choice.now.leaves_out a →
        AreAt S.journal (S.is_of context.now) a (depth + 1) next.old.states.items →
        IsAt S.journal (S.is_of context.now) a depth state.now →
        TriesState S.journal (S.is_of context.now) choice.now.leaves_out a (depth + 1) state.now
        next.old.states.items next.new.states.items
        (answer_entries S.kept_seen answers.old.entries) (answer_entries S.kept_seen answers.new.entries)) }
{
    let alloc = next.alloc;
    if !state.is_admitted(alloc, choice.filter)? {
        return answer(alloc, state, answers);
    }
    let picks = state.picks(alloc, context, choice.leaves_out)?;
    let moved = try_picks(context, state, &picks, next)?;
    if moved {
        return Ok(());
    }
    answer(alloc, state, answers)
}

/// Tries each state of a layer, while the next has fewer than so many states: whether all were tried. Each is gone once
/// it was tried, so that the memory of one layer is taken by the next.
fn try_layer<A: Allocator + Copy, S: SearchState<A>>(
    context: &S::Context,
    choice: &Choice<'_, S::Filter>,
    states: Vec<S, A>,
    next: &mut Layer<A, S>,
    answers: &mut Answers<A, S::Observation>,
    room: usize,
) -> Result<bool, AllocError>
    ensures { IfOk result (λ complete. (a : Query) (depth : ℕ) (tried : List (List ℕ)) →
        S.filters choice.now.filter.now a →
        FollowsAllBy choice.now.leaves_out a →
        next.old.states.items ≡ [] →
        AreAt S.journal (S.is_of context.now) a depth states.items →
        HaveTried choice.now.leaves_out a depth (tried ++ map S.journal states.items) tried
        (answer_entries S.kept_seen answers.old.entries) →
        TriesLayer S.journal (S.is_of context.now) choice.now.leaves_out a depth tried states.items
        next.new.states.items (answer_entries S.kept_seen answers.new.entries) room complete) }
{
    let count = states.len();
    let mut rest = VecDeque::from(states);
    for _ in 0..count {
        if next.states.len() >= room {
            return Ok(false);
        }
        let Some(state) = rest.pop_front() else {
            return Ok(true);
        };
        try_state(context, choice, &state, next, answers)?;
    }
    Ok(true)
}

/// Whether picks are left out, and the journals of the layer have no room for one more.
fn is_full<A: Allocator + Copy, S: SearchState<A>>(
    layer: &Layer<A, S>,
    leaves_out: bool,
) -> Result<bool, AllocError>
    ensures { IfOk result (IsLayerFull leaves_out S.journal layer.now.states.items) }
{
    if !leaves_out {
        return Ok(false);
    }
    let has_room = layer.has_room()?;
    if has_room {
        return Ok(false);
    }
    Ok(true)
}

/// Which runs a search follows, and which picks it leaves out.
#[derive(Drop)]
pub struct Choice<'a, F> {
    /// Which runs are followed.
    pub filter: &'a F,
    /// Whether picks are left out, since one goes before them that is independent of all others.
    pub leaves_out: bool,
}

/// What a search answers.
#[derive(Drop)]
pub struct Exploration<A: Allocator, M: Eq + Hash> {
    /// What is kept of the runs to their ends, each with a journal that leads there.
    pub answers: Answers<A, M>,
    /// How many states were met; usize::MAX stands for any larger number.
    pub states: usize,
    /// Whether all states were tried.
    pub is_complete: bool,
}

/// Tries all states from the first on, until so many were met. A run that is not admitted ends there. None where picks
/// are left out and a run meets a journal that has no room for a pick more: the search that leaves out none answers
/// then. An error is refused memory.
pub fn explore<A: Allocator + Copy, S: SearchState<A>>(
    alloc: A,
    context: &S::Context,
    choice: &Choice<'_, S::Filter>,
    first: S,
    max_states: usize,
) -> Result<Option<Exploration<A, S::Observation>>, AllocError>
    ensures some { IfOk result (λ o. IfSome o (λ e. (a : Query) →
        S.is_of context.now first a → S.filters choice.now.filter.now a →
        FollowsAllBy choice.now.leaves_out a →
        S.journal first ≡ moves a.program a.before →
        Explores choice.now.leaves_out a (answer_entries S.kept_seen e.answers.entries) max_states
        e.states e.is_complete)) }
    ensures none { IfOk result (λ o. IfNone o (choice.now.leaves_out ≡ true)) }
    ensures full { IfOk result (λ o. IfNone o ((a : Query) →
        S.is_of context.now first a → S.filters choice.now.filter.now a →
        FollowsAllBy choice.now.leaves_out a →
        S.journal first ≡ moves a.program a.before →
        MeetsFullJournal a)) }
{
    let mut layer = Layer::new(alloc);
    layer.add(first)?;
    let mut answers = IndexMap::new(alloc);
    let mut states = layer.states.len();
    for _ in 0..LAYERS {
        if layer.states.is_empty() {
            return Ok(Some(Exploration {
                answers,
                states,
                is_complete: true,
            }));
        }
        let full = is_full(&layer, choice.leaves_out)?;
        if full {
            return Ok(None);
        }
        let mut next = Layer::new(alloc);
        let room = max_states.saturating_sub(states);
        let is_complete = try_layer(
            context,
            choice,
            layer.into_states(),
            &mut next,
            &mut answers,
            room,
        )?;
        let met = states.saturating_add(next.states.len());
        if !is_complete {
            return Ok(Some(Exploration {
                answers,
                states: met,
                is_complete,
            }));
        }
        layer = next;
        states = met;
    }
    Ok(Some(Exploration {
        answers,
        states,
        is_complete: false,
    }))
}
