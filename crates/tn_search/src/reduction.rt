// One pick that is independent of all others.
ghost use Rattle.std.specs.Prelude.{◌≡◌, ◌∷◌, [], IfOk, IfSome, IsTrue, map};
ghost use Rattle.def_independence.specs.Alone.{are_own_steps, is_own_step};
ghost use Rattle.tn_flags.specs.Views.{event_of};
ghost use Rattle.tn_node.specs.Nodes.{moved_seen};
ghost use Rattle.tn_search.specs.FirstPicks.{GoesFirst, HasProcessesAlone, IsFirstPick, LeavesSessionsFree};
ghost use Rattle.tn_search.specs.Probes.{AnswersPick, has_no_event, has_own_steps};

use crate::program_state::ProgramState;
use crate::ready_picks::has_command_left;
use crate::search_sink::SearchSink;
use crate::session_states::are_free;
use std::alloc::{AllocError, Allocator};
use tn_explore::SearchState;
use tn_flags::Event;
use tn_independence::change_links;
use tn_messages::RunFilter;
use tn_node::{Moved, Node};
use tn_program::Program;
use tn_trace::JOURNAL;

/// Whether an event is a call, a return or an exception.
fn is_own_step<A: Allocator>(event: &Event<A>) -> bool
    ensures { result ≡ is_own_step (event_of event.now) }
{
    match event {
        Event::Sent { .. } => false,
        Event::Received { .. } => false,
        Event::Called { .. } => true,
        Event::Returned { .. } => true,
        Event::Raised { .. } => true,
        Event::Spawn { .. } => false,
        Event::Spawned { .. } => false,
        Event::Exited { .. } => false,
        Event::Linked { .. } => false,
        Event::Unlinked { .. } => false,
        Event::GettingLinked { .. } => false,
        Event::GettingUnlinked { .. } => false,
    }
}

/// Whether each of some events is.
fn are_own_steps<A: Allocator>(events: &Vec<Event<A>, A>) -> bool
    ensures { result ≡ are_own_steps (map event_of events.now.items) }
{
    for i in 0..events.len() {
        if !is_own_step(&events[i]) {
            return false;
        }
    }
    true
}

/// Whether a process moved, and its step has calls, returns and exceptions alone.
fn has_own_steps<A: Allocator>(moved: &Moved<A>) -> bool
    ensures { result ≡ has_own_steps (moved_seen moved.now) }
{
    let Moved::Moved(events) = moved else {
        return false;
    };
    are_own_steps(events)
}

/// Whether a process moved, and its step has no event.
fn has_no_event<A: Allocator>(moved: &Moved<A>) -> bool
    ensures { result ≡ has_no_event (moved_seen moved.now) }
{
    let Moved::Moved(events) = moved else {
        return false;
    };
    events.is_empty()
}

/// What a node answers to a pick. The node stays as it is.
fn answer_to<A: Allocator + Copy>(node: &Node<A>, pick: u32) -> Result<Moved<A>, AllocError>
    ensures { IfOk result (λ m. AnswersPick pick node.now (moved_seen m)) }
{
    let mut probe = node.share()?;
    probe.step(pick)
}

/// Whether before and after a pick no session that is asked acts on another process, or shows the process that is
/// picked a message as it comes.
fn leaves_sessions_free<A: Allocator + Copy, K: SearchSink<A> + Drop, F: RunFilter<A>>(
    program: &Program<A>,
    state: &ProgramState<A, K, F>,
    pick: u32,
) -> Result<bool, AllocError>
    ensures { IfOk result (λ b. IsTrue b →
        LeavesSessionsFree K.keeps K.is_by_process program.now state.now pick) }
{
    if !are_free(&state.places, &state.run.observer().slots, pick) {
        return Ok(false);
    }
    let mut after = state.share()?;
    if !after.advance(program, pick)? {
        return Ok(false);
    }
    Ok(are_free(&after.places, &after.run.observer().slots, pick))
}

/// Whether a pick is independent of all others, where no function makes or removes a link: it moves and shows nothing,
/// as a receive does; or messages are asked for by process, no command is left, it shows calls, returns and exceptions
/// alone, and it leaves the sessions that are asked free.
fn goes_first<A: Allocator + Copy, K: SearchSink<A> + Drop, F: RunFilter<A>>(
    program: &Program<A>,
    state: &ProgramState<A, K, F>,
    by_process_alone: bool,
    pick: u32,
) -> Result<bool, AllocError>
    ensures { IfOk result (λ b. IsTrue b →
        GoesFirst K.keeps K.is_by_process program.now state.now by_process_alone pick) }
{
    let moved = answer_to(state.run.node(), pick)?;
    if has_no_event(&moved) {
        return Ok(true);
    }
    if !by_process_alone {
        return Ok(false);
    }
    if !has_own_steps(&moved) {
        return Ok(false);
    }
    leaves_sessions_free(program, state, pick)
}

/// Whether messages are asked for by process, and no command is left.
fn has_processes_alone<A: Allocator + Copy, K: SearchSink<A> + Drop, F>(
    program: &Program<A>,
    state: &ProgramState<A, K, F>,
) -> bool
    ensures { IsTrue result → HasProcessesAlone K.is_by_process program.now state.now }
{
    K::is_of_processes() && !has_command_left(program, state.run.node())
}

/// The first of some picks after a state that is independent of all others. None where there is none, or a function
/// makes or removes a link.
pub(crate) fn first_pick<A: Allocator + Copy, K: SearchSink<A> + Drop, F: RunFilter<A>>(
    program: &Program<A>,
    state: &ProgramState<A, K, F>,
    picks: &[u32],
) -> Result<Option<u32>, AllocError>
    ensures { IfOk result (λ o. IfSome o (IsFirstPick K.keeps K.is_by_process program.now state.now)) }
{
    let made = state.run.journal().len();
    if made >= JOURNAL {
        return Ok(None);
    }
    if change_links(program.functions()) {
        return Ok(None);
    }
    let by_process_alone = has_processes_alone(program, state);
    for pick in picks {
        if goes_first(program, state, by_process_alone, *pick)? {
            return Ok(Some(*pick));
        }
    }
    Ok(None)
}

/// This pick alone.
pub(crate) fn pick_alone<A: Allocator>(alloc: A, pick: u32) -> Result<Vec<u32, A>, AllocError>
    ensures { IfOk result (λ v. v.items ≡ pick ∷ []) }
{
    let mut picks = Vec::new(alloc);
    picks.push(pick)?;
    Ok(picks)
}
