// What is known of the next step of the process that is picked. Nothing is built, and no memory is taken.
ghost use Rattle.std.specs.Prelude.{◌≡◌, Some};
ghost use Rattle.std.specs.Option.{option_map};
ghost use Rattle.def_outlook.specs.Outlook.{process_with, waits_at, nothing_ahead, outlook_of, outlook};
ghost use Rattle.tn_script.specs.Views.{functions_of};
ghost use Rattle.tn_process.specs.Views.{process_seen};
ghost use Rattle.tn_node.specs.Outlooks.{outlook_seen};
ghost use Rattle.tn_node.specs.Worlds.{world_of};

use crate::world::World;
use std::alloc::Allocator;
use tn_process::{OwnLink, Process, RuntimeError};
use tn_script::Function;
use tn_term::FIRST_PID;

/// What is known of the next step of a process before it is made.
#[derive(Clone, Copy, Debug, PartialEq, Eq, Drop)]
pub struct Outlook {
    /// The run-time error that it is, if it is one.
    pub error: Option<RuntimeError>,
    /// The depth of the newest frame that a catch step called.
    pub caught_at: Option<usize>,
    /// Whether the process to which it sends waits.
    pub is_awaited: bool,
    /// The link of the process with itself, or the unlink from itself, that it is, if it is one.
    pub own_link: Option<OwnLink>,
}

impl Outlook {
    /// Where no process is picked nothing is ahead.
    pub fn nothing() -> Outlook
        ensures { outlook_seen result ≡ nothing_ahead }
    {
        Outlook {
            error: None,
            caught_at: None,
            is_awaited: false,
            own_link: None,
        }
    }
}

impl<A: Allocator + Copy> World<A> {
    /// The process with this pid; None where none with it lives.
    fn process(&self, pid: u32) -> Option<&Process<A>>
        ensures { option_map (λ q. process_seen q.now) result ≡ process_with (world_of self.now) pid }
    {
        if pid < FIRST_PID {
            return None;
        }
        let place = (pid - FIRST_PID) as usize;
        if place >= self.slots.len() {
            return None;
        }
        match &self.slots[place] {
            Some(owner) => Some(&**owner),
            None => None,
        }
    }

    /// Whether the process with this pid waits.
    fn waits(&self, functions: &[Function<A>], pid: Option<u32>) -> bool
        ensures { result ≡ waits_at (functions_of functions.now) (world_of self.now) pid }
    {
        let Some(pid) = pid else {
            return false;
        };
        match self.process(pid) {
            Some(process) => process.is_waiting(functions),
            None => false,
        }
    }

    /// What is known of the next step of one of the processes, which has this pid.
    fn outlook_of(&self, functions: &[Function<A>], pid: u32, process: &Process<A>) -> Outlook
        ensures { outlook_seen result ≡
            outlook_of (functions_of functions.now) (world_of self.now) pid (Some (process_seen process.now)) }
    {
        Outlook {
            error: process.runtime_error(functions, self.next_pid()),
            caught_at: process.catch_depth(),
            is_awaited: self.waits(functions, process.addressee(functions)),
            own_link: process.own_link(functions, pid),
        }
    }

    /// What is known of the next step of the process with this pid.
    pub fn outlook(&self, functions: &[Function<A>], pid: u32) -> Outlook
        ensures { outlook_seen result ≡ outlook (functions_of functions.now) (world_of self.now) pid }
    {
        match self.process(pid) {
            Some(process) => self.outlook_of(functions, pid, process),
            None => Outlook::nothing(),
        }
    }
}
