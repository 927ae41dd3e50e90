// The search through all schedules of a program.
ghost use Rattle.std.specs.Prelude.{◌≡◌, false, true, IfOk, IfSome, IfNone};
ghost use Rattle.def_explore.specs.Rests.{KeptMessages};
ghost use Rattle.tn_program.specs.Views.{program_of};
ghost use Rattle.tn_search.specs.States.{ExploresPlan, ExploresPlanned, IsStateAfter};

use crate::process_sink::ProcessSink;
use crate::program_state::{ProgramState, copy_places};
use crate::search_sink::SearchSink;
use crate::total_sink::TotalSink;
use std::alloc::{AllocError, Allocator};
use std::marker::PhantomData;
use tn_explore::{Choice, Exploration, explore};
use tn_messages::{KeptListings, RunFilter};
use tn_program::Program;
use tn_trace::{JOURNAL, Recorder, Run};

/// Which messages of a session are in an order.
#[derive(Clone, Copy, Debug, PartialEq, Eq)]
pub enum ListingOrder {
    /// All of them.
    Total,
    /// Those of one process.
    ByProcess,
}

/// Which schedules are searched, and how far.
#[derive(Clone, Copy)]
pub struct SearchPlan<'a> {
    /// The picks that all begin with.
    pub before: &'a [u32],
    /// Which messages of a session are in an order.
    pub order: ListingOrder,
    /// The places in the control list, counted from 0, of the sessions that it is about.
    pub places: &'a [usize],
    /// How many states may be met before it ends.
    pub max_states: usize,
    /// Whether picks are left out that others go before which are independent of all.
    pub reduces: bool,
}

/// The state after some picks, of the sessions at some places.
pub(crate) fn state_after<A: Allocator + Copy, K: SearchSink<A> + Drop, F: RunFilter<A>>(
    alloc: A,
    program: &Program<A>,
    before: &[u32],
    places: &[usize],
) -> Result<ProgramState<A, K, F>, AllocError>
    ensures { IfOk result (IsStateAfter K.keeps K.is_by_process program.now before.now places.now) }
{
    let recorder = Recorder::<A, K>::new(alloc, program)?;
    let mut run = Run::new(alloc, program, recorder, JOURNAL)?;
    let mut given = Vec::new(alloc);
    run.take_all(program, before, &mut given)?;
    let places = copy_places(alloc, places)?;
    Ok(ProgramState {
        alloc,
        places,
        run,
        filter: PhantomData,
    })
}

/// The search through all schedules that begin with some picks, by what a state keeps of messages. It may leave out
/// picks where each run is followed; None where it does, and a journal may have no room for one more.
fn explore_by<A: Allocator + Copy, K: SearchSink<A> + Drop, F: RunFilter<A>>(
    alloc: A,
    program: &Program<A>,
    filter: &F,
    plan: &SearchPlan<'_>,
    leaves_out: bool,
) -> Result<Option<Exploration<A, KeptListings<A>>>, AllocError>
    ensures some { let admits = F.admits filter.now in let p = program_of program.now in IfOk result (λ o.
        IfSome o (λ e. (leaves_out ≡ true → (kept : KeptMessages) → admits kept ≡ true) →
        ExploresPlanned leaves_out admits K.is_by_process p plan.now e)) }
    ensures none { IfOk result (λ o. IfNone o (leaves_out ≡ true)) }
{
    let first = state_after::<A, K, F>(alloc, program, plan.before, plan.places)?;
    let choice = Choice { filter, leaves_out };
    explore(alloc, program, &choice, first, plan.max_states)
}

/// The search that leaves out no pick.
fn explore_whole<A: Allocator + Copy, K: SearchSink<A> + Drop, F: RunFilter<A>>(
    alloc: A,
    program: &Program<A>,
    filter: &F,
    plan: &SearchPlan<'_>,
) -> Result<Exploration<A, KeptListings<A>>, AllocError>
    ensures { let admits = F.admits filter.now in IfOk result
        (ExploresPlanned false admits K.is_by_process (program_of program.now) plan.now) }
{
    let found = explore_by::<A, K, F>(alloc, program, filter, plan, false)?;
    match found {
        Some(exploration) => Ok(exploration),
        None => unreachable!(),
    }
}

/// The search that leaves out picks where each run is followed. Where a journal may have no room for one more it leaves
/// out none.
fn explore_reduced<A: Allocator + Copy, K: SearchSink<A> + Drop, F: RunFilter<A>>(
    alloc: A,
    program: &Program<A>,
    filter: &F,
    plan: &SearchPlan<'_>,
) -> Result<Exploration<A, KeptListings<A>>, AllocError>
    ensures { let admits = F.admits filter.now in IfOk result
        (ExploresPlanned true admits K.is_by_process (program_of program.now) plan.now) }
{
    if !filter.is_open() {
        return explore_whole::<A, K, F>(alloc, program, filter, plan);
    }
    let found = explore_by::<A, K, F>(alloc, program, filter, plan, true)?;
    match found {
        Some(exploration) => Ok(exploration),
        None => explore_whole::<A, K, F>(alloc, program, filter, plan),
    }
}

/// The search that the plan says, by what a state keeps of messages.
fn explore_as_planned<A: Allocator + Copy, K: SearchSink<A> + Drop, F: RunFilter<A>>(
    alloc: A,
    program: &Program<A>,
    filter: &F,
    plan: &SearchPlan<'_>,
) -> Result<Exploration<A, KeptListings<A>>, AllocError>
    ensures { let admits = F.admits filter.now in IfOk result
        (ExploresPlanned plan.now.reduces admits K.is_by_process (program_of program.now) plan.now) }
{
    let reduces = plan.reduces;
    if reduces {
        return explore_reduced::<A, K, F>(alloc, program, filter, plan);
    }
    explore_whole::<A, K, F>(alloc, program, filter, plan)
}

/// The search through all schedules of a program that the plan says, each followed as long as what is kept of it is
/// admitted. Where the plan reduces it and each run is followed, picks are left out that others go before which are
/// independent of all: the entries are as sound and complete, and their journals as short.
///
/// # Errors
///
/// AllocError where memory was refused.
pub fn explore_program<A: Allocator + Copy, F: RunFilter<A>>(
    alloc: A,
    program: &Program<A>,
    filter: &F,
    plan: &SearchPlan<'_>,
) -> Result<Exploration<A, KeptListings<A>>, AllocError>
    ensures { IfOk result (ExploresPlan (F.admits filter.now) (program_of program.now) plan.now) }
{
    match plan.order {
        ListingOrder::Total => {
            explore_as_planned::<A, TotalSink<A>, F>(alloc, program, filter, plan)
        }
        ListingOrder::ByProcess => {
            explore_as_planned::<A, ProcessSink<A>, F>(alloc, program, filter, plan)
        }
    }
}
