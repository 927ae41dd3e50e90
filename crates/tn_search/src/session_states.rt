// The sessions that a search is about, by their places in the control list.
ghost use Rattle.std.specs.Prelude.{◌≡◌, IsTrue, IfOk};
ghost use Rattle.tn_term.specs.Views.{alive_of};
ghost use Rattle.def_explore.specs.Lists.{EachOf};
ghost use Rattle.tn_search.specs.Sessions.{AreSameAt, IsSameSlot, IsSameSession, AreKeptAt, AddsKept};
ghost use Rattle.tn_search.specs.Sessions.{IsFreeAt, IsFreeSession};

use crate::search_sink::SearchSink;
use std::alloc::{AllocError, Allocator};
use std::hash::{FoldHasher, Hasher};
use tn_independence::session_acts_on_self;
use tn_session::Session;
use tn_term::{Alive, PROCESSES};
use tn_trace::Slot;

/// Whether the same processes live.
pub(crate) fn same_living(one: Alive, other: Alive) -> bool
    ensures { IsTrue result → alive_of one ≡ alive_of other }
{
    for place in 0..PROCESSES {
        if one.has_place(place) != other.has_place(place) {
            return false;
        }
    }
    true
}

/// Whether events left both sessions in the same state.
fn same_session<A: Allocator + Copy>(one: &Option<Session<A>>, other: &Option<Session<A>>) -> bool
    ensures { IsSameSession one.now other.now result }
{
    match one {
        Some(one) => match other {
            Some(other) => one.same(other),
            None => false,
        },
        None => other.is_none(),
    }
}

/// Whether both sessions are in the same state, and the same is kept of their messages.
fn same_slot<A: Allocator + Copy, K: SearchSink<A> + Drop>(
    one: &Slot<A, K>,
    other: &Slot<A, K>,
) -> bool
    ensures { IsTrue result → IsSameSlot K.keeps K.is_by_process one.now other.now }
{
    if !same_session(&one.session, &other.session) {
        return false;
    }
    one.kept.same(&other.kept)
}

/// The same of the sessions at a place, where both lists have it.
fn same_at<A: Allocator + Copy, K: SearchSink<A> + Drop>(
    place: usize,
    one: &[Slot<A, K>],
    other: &[Slot<A, K>],
) -> bool
    ensures { IsTrue result → AreSameAt K.keeps K.is_by_process one.now other.now place }
{
    if place >= one.len() {
        return true;
    }
    if place >= other.len() {
        return true;
    }
    same_slot(&one[place], &other[place])
}

/// The same of the sessions at these places.
pub(crate) fn same_slots<A: Allocator + Copy, K: SearchSink<A> + Drop>(
    places: &[usize],
    one: &[Slot<A, K>],
    other: &[Slot<A, K>],
) -> bool
    ensures { IsTrue result → EachOf (AreSameAt K.keeps K.is_by_process one.now other.now) places.now }
{
    for place in places {
        if !same_at(*place, one, other) {
            return false;
        }
    }
    true
}

/// Whether no specification of a session acts on another process than its own, and the session shows this process no
/// message as it comes. One that isn't created is none of which that is said.
fn is_free_session<A: Allocator + Copy>(session: &Option<Session<A>>, pid: u32) -> bool
    ensures { IsFreeSession pid session.now result }
{
    let Some(session) = session else {
        return false;
    };
    let Some(look) = session.look() else {
        return false;
    };
    let flags = look.flags_at(pid);
    session_acts_on_self(&look) && !flags.receive
}

/// The same of the session at a place, where there is one.
fn is_free_at<A: Allocator + Copy, K: SearchSink<A> + Drop>(
    place: usize,
    slots: &[Slot<A, K>],
    pid: u32,
) -> bool
    ensures { IsTrue result → IsFreeAt K.keeps pid slots.now place }
{
    if place >= slots.len() {
        return true;
    }
    is_free_session(&slots[place].session, pid)
}

/// The same of the sessions at these places.
pub(crate) fn are_free<A: Allocator + Copy, K: SearchSink<A> + Drop>(
    places: &[usize],
    slots: &[Slot<A, K>],
    pid: u32,
) -> bool
    ensures { IsTrue result → EachOf (IsFreeAt K.keeps pid slots.now) places.now }
{
    for place in places {
        if !is_free_at(*place, slots, pid) {
            return false;
        }
    }
    true
}

/// Adds the sessions at these places to a hash: the same add the same.
pub(crate) fn add_slots<A: Allocator + Copy, K: SearchSink<A> + Drop>(
    places: &[usize],
    slots: &[Slot<A, K>],
    hasher: &mut FoldHasher,
) {
    for place in places {
        if let Some(slot) = slots.get(*place) {
            if let Some(session) = &slot.session {
                hasher.write_u64(session.fingerprint());
            }
            slot.kept.add_to(hasher);
        }
    }
}

/// What is kept of the messages of the session at a place comes after what is kept of others, with one owner more.
fn add_kept<A: Allocator + Copy, K: SearchSink<A> + Drop>(
    alloc: A,
    place: usize,
    slots: &[Slot<A, K>],
    sinks: &mut Vec<K, A>,
) -> Result<(), AllocError>
    ensures { IfOk result (λ _. AddsKept K.keeps place slots.now sinks.old.items sinks.new.items) }
{
    if place >= slots.len() {
        return Ok(());
    }
    let kept = slots[place].kept.share(alloc)?;
    sinks.push(kept)?;
    Ok(())
}

/// What is kept of the messages of the sessions at these places, with one owner more.
pub(crate) fn share_kept<A: Allocator + Copy, K: SearchSink<A> + Drop>(
    alloc: A,
    places: &[usize],
    slots: &[Slot<A, K>],
) -> Result<Vec<K, A>, AllocError>
    ensures { IfOk result (λ v. AreKeptAt K.keeps places.now slots.now v.items) }
{
    let mut sinks = Vec::with_capacity(alloc, places.len())?;
    for place in places {
        add_kept(alloc, *place, slots, &mut sinks)?;
    }
    Ok(sinks)
}
