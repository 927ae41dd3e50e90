// Whether two states of a session differ in what events change: who lives, the flags of processes, the marks of frames.
ghost use Rattle.std.specs.Prelude.{◌≡◌, [], IsTrue, slice_get, unwrap_or};
ghost use Rattle.tn_term.specs.Views.{alive_of};
ghost use Rattle.tn_flags.specs.Views.{flags_of, table_of};
ghost use Rattle.tn_session.specs.Sessions.{processes_in};
ghost use Rattle.tn_session.specs.Views.{marks_seen, newest_first, state_seen};

use crate::state::{Kind, Mark, State};
use std::alloc::Allocator;
use std::hash::{FoldHasher, Hasher};
use tn_flags::{FlagTable, Flags};
use tn_term::{Alive, FIRST_PID, PROCESSES};

/// Whether the same processes live.
fn same_living(one: Alive, other: Alive) -> bool
    ensures { IsTrue result → alive_of one ≡ alive_of other }
{
    for place in 0..PROCESSES {
        if one.has_place(place) != other.has_place(place) {
            return false;
        }
    }
    true
}

/// Whether the flags are the same.
fn same_flags(one: Flags, other: Flags) -> bool
    ensures { IsTrue result → flags_of one ≡ flags_of other }
{
    one == other
}

/// Whether all processes have the same flags.
fn same_tables(one: &FlagTable, other: &FlagTable) -> bool
    ensures { IsTrue result → table_of one.now ≡ table_of other.now }
{
    for place in 0..one.len().min(other.len()) {
        let pid = FIRST_PID + place as u32;
        if !same_flags(one.of(pid), other.of(pid)) {
            return false;
        }
    }
    true
}

/// The marks of the process at this place.
fn marks_at<A: Allocator>(marks: &[Vec<Mark, A>], place: usize) -> &[Mark]
    ensures { newest_first result.now ≡ unwrap_or (slice_get (marks_seen marks.now) place) [] }
{
    match marks.get(place) {
        Some(of_process) => of_process,
        None => &[],
    }
}

/// Whether the marks of a process are the same.
fn same_marks(one: &[Mark], other: &[Mark]) -> bool
    ensures { IsTrue result → one.now ≡ other.now }
{
    one == other
}

/// Whether all processes have the same marks.
fn same_marks_of_all<A: Allocator>(one: &[Vec<Mark, A>], other: &[Vec<Mark, A>]) -> bool
    ensures { IsTrue result → marks_seen one.now ≡ marks_seen other.now }
{
    if one.len() > PROCESSES || other.len() > PROCESSES {
        return false;
    }
    for place in 0..PROCESSES {
        if !same_marks(marks_at(one, place), marks_at(other, place)) {
            return false;
        }
    }
    true
}

/// The flags as the bits of a number.
fn bits_of(flags: Flags) -> u16 {
    u16::from(flags.send)
        | u16::from(flags.receive) << 1
        | u16::from(flags.call) << 2
        | u16::from(flags.procs) << 3
        | u16::from(flags.silent) << 4
        | u16::from(flags.arity) << 5
        | u16::from(flags.set_on_spawn) << 6
        | u16::from(flags.set_on_first_spawn) << 7
        | u16::from(flags.set_on_link) << 8
        | u16::from(flags.set_on_first_link) << 9
}

/// Adds the marks of a process to a hash.
fn add_marks(marks: &[Mark], hasher: &mut FoldHasher) {
    for mark in marks {
        hasher.write_usize(mark.depth);
        match mark.kind {
            Kind::Returns => hasher.write_u8(0),
            Kind::Exceptions => hasher.write_u8(1),
        }
    }
}

impl<A: Allocator> State<A> {
    /// Whether the same processes live, with the same flags and the same marks.
    pub(crate) fn same(&self, other: &State<A>) -> bool
        ensures { IsTrue result → processes_in (state_seen self.now) ≡ processes_in (state_seen other.now) }
    {
        same_living(self.alive, other.alive)
            && same_tables(&self.flags, &other.flags)
            && same_marks_of_all(&self.marks, &other.marks)
    }

    /// A number that is the same where `same` says so, and mostly another elsewhere.
    pub(crate) fn fingerprint(&self) -> u64 {
        let mut hasher = FoldHasher::default();
        for place in 0..PROCESSES {
            hasher.write_u8(u8::from(self.alive.has_place(place)));
            hasher.write_u16(bits_of(self.flags.of(FIRST_PID + place as u32)));
            add_marks(marks_at(&self.marks, place), &mut hasher);
        }
        hasher.finish()
    }
}
