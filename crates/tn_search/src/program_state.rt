// A state of a program's runs.
ghost use Rattle.std.specs.Prelude.{◌≡◌, IfOk};
ghost use Rattle.tn_explore.specs.SearchStates.{HasAllMoves};
ghost use Rattle.tn_search.specs.States.{IsStateFor, state_journal};

use crate::ready_picks::ready_picks;
use crate::reduction::{first_pick, pick_alone};
use crate::search_sink::SearchSink;
use crate::session_states::{add_slots, same_living, same_slots, share_kept};
use std::alloc::{AllocError, Allocator};
use std::hash::{FoldHasher, Hasher};
use std::marker::PhantomData;
use tn_explore::SearchState;
use tn_messages::{KeptListings, RunFilter};
use tn_program::Program;
use tn_trace::{JOURNAL, PickOutcome, Recorder, Run, pass_picks};

/// A state of a program's runs: the run that led there, and the places of the sessions that are asked. The program is
/// the context of its search, and `F` says which runs are followed.
#[derive(Drop)]
pub struct ProgramState<A: Allocator, K, F> {
    pub(crate) alloc: A,
    pub(crate) places: Vec<usize, A>,
    pub(crate) run: Run<A, Recorder<A, K>>,
    pub(crate) filter: PhantomData<F>,
}

/// The same places.
pub(crate) fn copy_places<A: Allocator>(
    alloc: A,
    places: &[usize],
) -> Result<Vec<usize, A>, AllocError>
    ensures { IfOk result (λ v. v.items ≡ places.now) }
{
    let mut copy = Vec::new(alloc);
    copy.extend_from_slice(places)?;
    Ok(copy)
}

/// The picks that may move a state.
fn moving_picks<A: Allocator + Copy, K: SearchSink<A> + Drop, F>(
    alloc: A,
    program: &Program<A>,
    state: &ProgramState<A, K, F>,
) -> Result<Vec<u32, A>, AllocError>
    ensures { let is_of = IsStateFor K.keeps K.is_by_process program.now in
        IfOk result (λ v. HasAllMoves state_journal is_of state.now v.items) }
{
    let made = state.run.journal().len();
    if made >= JOURNAL {
        return Ok(Vec::new(alloc));
    }
    let pass = pass_picks(alloc)?;
    ready_picks(alloc, program, state.run.node(), &pass)
}

impl<A: Allocator + Copy, K: SearchSink<A> + Drop, F: RunFilter<A>> SearchState<A>
    for ProgramState<A, K, F> {
    ghost use Rattle.std.proofs.Common.{refl};
    ghost use Rattle.tn_messages.specs.MessageViews.{kept_seen};
    ghost use Rattle.tn_messages.proofs.Equal.{by_kept};
    ghost use Rattle.tn_search.specs.States.{IsFilterFor};

    type Context = Program<A>;

    type Filter = F;

    type Observation = KeptListings<A>;

    ghost journal = { state_journal };

    ghost is_of = { IsStateFor K.keeps K.is_by_process };

    ghost filters = { IsFilterFor F.admits };

    ghost kept_seen = { kept_seen };

    fn picks(
        &self,
        alloc: A,
        context: &Program<A>,
        leaves_out: bool,
    ) -> Result<Vec<u32, A>, AllocError> {
        let picks = moving_picks(alloc, context, self)?;
        if !leaves_out {
            return Ok(picks);
        }
        let first = first_pick(context, self, &picks)?;
        match first {
            Some(pick) => pick_alone(alloc, pick),
            None => Ok(picks),
        }
    }

    fn is_admitted(&self, alloc: A, filter: &F) -> Result<bool, AllocError> {
        if filter.is_open() {
            return Ok(true);
        }
        let kept = self.observe(alloc)?;
        filter.is_admitted(alloc, &kept)
    }

    fn share(&self) -> Result<Self, AllocError> {
        let run = self.run.share()?;
        let places = copy_places(self.alloc, &self.places)?;
        Ok(ProgramState {
            alloc: self.alloc,
            places,
            run,
            filter: PhantomData,
        })
    }

    fn advance(&mut self, context: &Program<A>, pick: u32) -> Result<bool, AllocError> {
        let mut given = Vec::new(self.alloc);
        match self.run.step(context, pick, &mut given)? {
            PickOutcome::Moved => Ok(true),
            PickOutcome::Idle => Ok(false),
            PickOutcome::Full => Ok(false),
        }
    }

    fn same(&self, other: &Self) -> bool {
        if self.run.journal().len() != other.run.journal().len() {
            return false;
        }
        if !self.run.node().same(other.run.node()) {
            return false;
        }
        let one = self.run.observer();
        let two = other.run.observer();
        if !same_living(one.living, two.living) {
            return false;
        }
        same_slots(&self.places, &one.slots, &two.slots)
    }

    fn fingerprint(&self) -> usize {
        let mut hasher = FoldHasher::default();
        hasher.write_u64(self.run.node().fingerprint());
        add_slots(&self.places, &self.run.observer().slots, &mut hasher);
        hasher.finish() as usize
    }

    fn observe(&self, alloc: A) -> Result<KeptListings<A>, AllocError> {
        let sinks = share_kept(alloc, &self.places, &self.run.observer().slots)?;
        K::gather(alloc, &sinks)
    }

    fn copy_journal(&self, alloc: A) -> Result<Vec<u32, A>, AllocError> {
        let mut copy = Vec::new(alloc);
        copy.extend_from_slice(self.run.journal())?;
        Ok(copy)
    }

    ghost equals = { by_kept ⟦<KeptListings<A> as PartialEq>⟧.eq (λ v w. refl) (λ v w. refl) (λ v w. (refl, refl)) };
}
