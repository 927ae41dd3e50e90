// The state of a session that was created.
ghost use Rattle.std.specs.Prelude.{◌≡◌, ◌-◌};
ghost use Rattle.def_session.specs.State as definition;
ghost use Rattle.tn_flags.specs.Views.{flags_of};
ghost use Rattle.tn_session.specs.Views.{state_seen};

use crate::shared_spec::SharedSpec;
use std::alloc::Allocator;
use std::sync::Arc;
use tn_flags::{FlagTable, Flags};
use tn_index::{Setting, Settings};
use tn_term::{Alive, FIRST_PID, Mfa};

/// Whether the session was destroyed.
#[derive(Clone, Copy, Debug, PartialEq, Eq)]
pub(crate) enum Phase {
    Live,
    Destroyed,
}

/// What the mark of a frame is for: the return of its call alone, or an exception that leaves the frame too.
#[derive(Clone, Copy, Debug, PartialEq, Eq)]
pub enum Kind {
    Returns,
    Exceptions,
}

/// The mark of the frame of this depth.
#[derive(Clone, Copy, PartialEq, Eq)]
pub(crate) struct Mark {
    pub depth: usize,
    pub kind: Kind,
}

/// What a session knows and was reported to show.
#[derive(Drop)]
pub(crate) struct State<A: Allocator> {
    pub alloc: A,
    pub phase: Phase,
    /// The functions of the program, each with whether it is exported.
    pub functions: Arc<Vec<(Mfa<A>, bool), A>, A>,
    pub alive: Alive,
    pub flags: FlagTable,
    /// Of new processes.
    pub new_process_flags: Flags,
    pub settings: Settings<SharedSpec<A>, A>,
    pub sending: Setting<SharedSpec<A>>,
    pub receiving: Setting<SharedSpec<A>>,
    /// Of the processes from 100 on, the marks of frames, the newest last; those past the end have none.
    pub marks: Vec<Vec<Mark, A>, A>,
}

/// The place of a process among the marks: that of pid 100 is 0.
pub(crate) fn place_of(pid: u32) -> usize
    ensures { result ≡ pid - 100 }
{
    pid.saturating_sub(FIRST_PID) as usize
}

impl<A: Allocator> State<A> {
    /// The flags of the process with this pid.
    pub(crate) fn flags_at(&self, pid: u32) -> Flags
        ensures { flags_of result ≡ definition.flags_at (state_seen self.now) pid }
    {
        self.flags.of(pid)
    }

    /// Changes the flags of the process with this pid.
    pub(crate) fn set_flags(&mut self, pid: u32, flags: Flags)
        ensures state { state_seen self.new ≡ definition.with_flags (state_seen self.old) pid (flags_of flags) }
        ensures functions { self.new.functions ≡ self.old.functions }
    {
        self.flags.set(pid, flags);
    }
}
