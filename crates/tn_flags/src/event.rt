// What a step of the node shows.
use crate::class::Class;
use std::alloc::Allocator;
use tn_term::{Mfa, SharedTerm, Term};

/// An event of the node. The field `pid` is the process that the event is about.
#[derive(Drop)]
pub enum Event<A: Allocator> {
    /// A message was sent, to a living process or not.
    Sent {
        pid: u32,
        message: SharedTerm<A>,
        to: u32,
        alive: bool,
    },
    /// A message was put into the mailbox.
    Received {
        pid: u32,
        sender: u32,
        message: SharedTerm<A>,
    },
    /// A function was called.
    Called {
        pid: u32,
        call: Call<A>,
    },
    /// A call returned this value from the frame at this depth.
    Returned {
        pid: u32,
        mfa: Mfa<A>,
        value: SharedTerm<A>,
        depth: usize,
    },
    /// An exception of this class and value left the frame at this depth.
    Raised {
        pid: u32,
        mfa: Mfa<A>,
        class: Class,
        value: SharedTerm<A>,
        depth: usize,
    },
    /// The process started a child.
    Spawn {
        pid: u32,
        child: u32,
        mfa: Mfa<A>,
        args: Vec<SharedTerm<A>, A>,
    },
    /// The process was started by its parent.
    Spawned {
        pid: u32,
        parent: u32,
        mfa: Mfa<A>,
        args: Vec<SharedTerm<A>, A>,
    },
    /// The process ended.
    Exited {
        pid: u32,
        reason: Term<A>,
    },
    /// The process linked itself to another.
    Linked {
        pid: u32,
        other: u32,
    },
    /// The process removed its link to another.
    Unlinked {
        pid: u32,
        other: u32,
    },
    /// Another process linked itself to this one.
    GettingLinked {
        pid: u32,
        other: u32,
    },
    /// The link to another process was removed by that one, or by its exit.
    GettingUnlinked {
        pid: u32,
        other: u32,
    },
}

/// A call: whether it names the module, whether the function is exported, the function of the frame
/// beneath, and the depth of its frame, which is 1 for an entry call.
#[derive(Drop)]
pub struct Call<A: Allocator> {
    pub mfa: Mfa<A>,
    pub args: Vec<SharedTerm<A>, A>,
    pub named: bool,
    pub exported: bool,
    pub caller: Option<Mfa<A>>,
    pub depth: usize,
}
