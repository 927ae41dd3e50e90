// The commands of the control list.
ghost use Rattle.std.specs.Prelude.{◌≡◌};
ghost use Rattle.def_script.specs.Program.{session_of};
ghost use Rattle.tn_flags.specs.Views.{command_of};

use std::alloc::Allocator;
use tn_term::{Atom, Term};

/// A command to the session of a name, its other fields being the terms that the script gives.
#[derive(Drop)]
pub enum Command<A: Allocator> {
    /// Creates the session, with this tracer (`trace:session_create/3`).
    SessionCreate {
        session: Atom<A>,
        tracer: Atom<A>,
    },
    /// Ends the session (`trace:session_destroy/1`).
    SessionDestroy {
        session: Atom<A>,
    },
    /// Sets or clears flags of processes (`trace:process/4`).
    Process {
        session: Atom<A>,
        procs: Term<A>,
        how: Term<A>,
        flags: Term<A>,
    },
    /// Sets what calls of functions show (`trace:function/4`).
    Function {
        session: Atom<A>,
        mfa: Term<A>,
        specification: Term<A>,
        options: Term<A>,
    },
    /// Sets what sends show (`trace:send/3`).
    Send {
        session: Atom<A>,
        specification: Term<A>,
    },
    /// Sets what receives show (`trace:recv/3`).
    Recv {
        session: Atom<A>,
        specification: Term<A>,
    },
}

impl<A: Allocator> Command<A> {
    /// The name of the session that the command is to.
    pub fn session(&self) -> &Atom<A>
        ensures { result.now ≡ session_of (command_of self.now) }
    {
        match self {
            Command::SessionCreate { session, .. } => session,
            Command::SessionDestroy { session } => session,
            Command::Process { session, .. } => session,
            Command::Function { session, .. } => session,
            Command::Send { session, .. } => session,
            Command::Recv { session, .. } => session,
        }
    }
}
