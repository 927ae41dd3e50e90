// The flags of all processes of a run.
ghost use Rattle.std.specs.Prelude.{◌≡◌, ◌-◌, length};
ghost use Rattle.def_spec.specs.Flags.{flags_in, with_flags_in};
ghost use Rattle.def_spec.specs.Expressions.{flags_by, changes, silences};
ghost use Rattle.tn_flags.specs.Views.{flags_of, table_of, no_flags_of_any};

use crate::flags::{Flags, SILENT};
use tn_term::FIRST_PID;

/// The flags of the processes 100 to 163 in a session (`trace:process/4`).
#[derive(Clone, Copy, Debug)]
pub struct FlagTable {
    flags: [Flags; 64],
}

/// The place of a process in the table: that of pid 100 is 0.
fn place_of(pid: u32) -> usize
    ensures { result ≡ pid - 100 }
{
    pid.saturating_sub(FIRST_PID) as usize
}

impl FlagTable {
    /// No process has a flag.
    pub fn none() -> FlagTable
        ensures { table_of result ≡ no_flags_of_any }
    {
        let none = Flags::none();
        FlagTable { flags: [none; 64] }
    }

    /// How many processes it is of.
    pub fn len(&self) -> usize
        ensures processes { result ≡ 64 }
        ensures counted { result ≡ length (table_of self.now) }
    {
        self.flags.len()
    }

    /// The flags of the process with this pid.
    pub fn of(&self, pid: u32) -> Flags
        ensures { flags_of result ≡ flags_in (table_of self.now) pid }
    {
        match self.flags.get(place_of(pid)) {
            Some(flags) => *flags,
            None => Flags::none(),
        }
    }

    /// Gives the process with this pid these flags.
    pub fn set(&mut self, pid: u32, flags: Flags)
        ensures { table_of self.new ≡ with_flags_in (table_of self.old) pid (flags_of flags) }
    {
        let place = place_of(pid);
        if place < self.flags.len() {
            self.flags[place] = flags;
        }
    }

    /// Clears flags of the process with this pid, and then sets others.
    pub fn change(&mut self, pid: u32, off: Flags, on: Flags)
        ensures { table_of self.new ≡ flags_by pid (table_of self.old) (changes pid (flags_of off) (flags_of on)) }
    {
        let flags = self.of(pid).without(off).join(on);
        self.set(pid, flags);
    }

    /// Sets or clears the flag `silent` of the process with this pid.
    pub fn silence(&mut self, pid: u32, on: bool)
        ensures { table_of self.new ≡ flags_by pid (table_of self.old) (silences on) }
    {
        let flags = self.of(pid);
        if on {
            self.set(pid, flags.join(SILENT));
        } else {
            self.set(pid, flags.without(SILENT));
        }
    }
}
