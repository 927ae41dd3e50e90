// The states after so many moves, each once.
ghost use Rattle.std.specs.Prelude.{◌≡◌, ℕ, IfOk, List};

use crate::search_state::SearchState;
use std::alloc::{AllocError, Allocator};

/// How many lists the states are in, by their fingerprints.
const HEADS: usize = 65536;

/// How many picks a journal may have.
const JOURNAL: usize = 65536;

/// The states after so many moves. The lists by fingerprint only say where to look.
#[derive(Drop)]
pub struct Layer<A: Allocator, S> {
    pub(crate) alloc: A,
    pub(crate) states: Vec<S, A>,
    /// For each list the place of its newest state, from 1; 0 where it has none.
    heads: Vec<usize, A>,
    /// For each state the one before it in its list.
    links: Vec<usize, A>,
}

impl<A: Allocator + Copy, S: SearchState<A>> Layer<A, S> {
    ghost use Rattle.std.specs.Prelude.{[], ◌∷◌, ◌++◌};
    ghost use Rattle.tn_explore.specs.Query.{Query};
    ghost use Rattle.tn_explore.specs.Searches.{IsAt, AreAt, HasSame, AddsState, HasLayerRoom};

    /// No state.
    pub fn new(alloc: A) -> Layer<A, S>
        ensures { result.states.items ≡ [] }
    {
        Layer {
            alloc,
            states: Vec::new(alloc),
            heads: Vec::new(alloc),
            links: Vec::new(alloc),
        }
    }

    /// Whether the layer has the state.
    fn has(&self, state: &S, list: usize) -> bool
        ensures { (x : S.Context) → HasSame S.journal (S.is_of x) self.now.states.items state.now result }
    {
        let mut place = match self.heads.get(list) {
            Some(head) => *head,
            None => 0,
        };
        for _ in 0..self.states.len() {
            if place == 0 {
                return false;
            }
            let Some(other) = self.states.get(place - 1) else {
                return false;
            };
            if state.same(other) {
                return true;
            }
            place = match self.links.get(place - 1) {
                Some(link) => *link,
                None => 0,
            };
        }
        false
    }

    /// Whether the journals of its states have room for a pick more.
    pub fn has_room(&self) -> Result<bool, AllocError>
        ensures { IfOk result (HasLayerRoom S.journal self.now.states.items) }
    {
        let Some(state) = self.states.first() else {
            return Ok(true);
        };
        let journal = state.copy_journal(self.alloc)?;
        let made = journal.len();
        if made >= JOURNAL {
            return Ok(false);
        }
        Ok(true)
    }

    /// The states.
    pub fn into_states(self) -> Vec<S, A>
        ensures { result ≡ self.states }
    {
        self.states
    }

    /// Puts the state into its list.
    fn put(&mut self, state: S, list: usize) -> Result<(), AllocError>
        ensures { IfOk result (λ _. self.new.states.items ≡ self.old.states.items ++ state ∷ []) }
    {
        if self.heads.is_empty() {
            self.heads.resize(HEADS, 0)?;
        }
        let before = match self.heads.get(list) {
            Some(head) => *head,
            None => 0,
        };
        self.links.push(before)?;
        self.states.push(state)?;
        if list < self.heads.len() {
            self.heads[list] = self.states.len();
        }
        Ok(())
    }

    /// Adds the state, where the layer has none that is the same.
    pub fn add(&mut self, state: S) -> Result<(), AllocError>
        ensures { IfOk result (λ _. (x : S.Context) (a : Query) (depth : ℕ) →
            AreAt S.journal (S.is_of x) a depth self.old.states.items → IsAt S.journal (S.is_of x) a depth state →
            AddsState S.journal (S.is_of x) a depth state self.old.states.items self.new.states.items) }
    {
        let list = state.fingerprint() % HEADS;
        if self.has(&state, list) {
            return Ok(());
        }
        self.put(state, list)
    }
}
