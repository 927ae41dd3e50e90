// A program, made of forms that keep all rules.
ghost use Rattle.std.specs.Prelude.{◌≡◌, ◌↔◌, ◌≤◌, IfOk, IsTrue, length, map, slice_get};
ghost use Rattle.std.specs.Arc.{arc_value};

use crate::creations::{Sessions, count_sessions, find_session, sessions_of};
use std::alloc::{AllocError, Allocator};
use std::sync::Arc;
use tn_flags::Command;
use tn_script::{Entry, Function, same_commands, same_entries, same_functions};
use tn_term::Atom;

/// The functions of a script, with several owners: its program and each node that runs it.
pub type SharedFunctions<A> = Arc<Vec<Function<A>, A>, A>;

/// The functions, the initial processes and the control list of a script.
#[derive(Drop)]
pub struct Program<A: Allocator> {
    pub(crate) functions: SharedFunctions<A>,
    pub(crate) entries: Vec<Entry<A>, A>,
    pub(crate) commands: Vec<Command<A>, A>,
    ghost few_processes: { length entries.items ≤ 16 },
}

impl<A: Allocator> Program<A> {
    ghost use Rattle.tn_flags.specs.Views.{command_of};
    ghost use Rattle.tn_script.specs.Views.{functions_of, entry_of};
    ghost use Rattle.std.specs.Option.{option_map};
    ghost use Rattle.def_script.specs.Script.{creations};
    ghost use Rattle.tn_program.specs.Variables.{name_pair};
    ghost use Rattle.tn_program.specs.Views.{program_of};

    /// The functions, in the order of their forms.
    pub fn functions(&self) -> &[Function<A>]
        ensures { functions_of result.now ≡ (program_of self.now).functions }
    {
        self.functions.as_slice()
    }

    /// The functions with one more owner. It is refused only where the count of owners is full.
    pub fn share_functions(&self) -> Result<SharedFunctions<A>, AllocError>
        ensures { IfOk result (λ fs. functions_of (arc_value fs).items ≡ (program_of self.now).functions) }
    {
        Ok(Arc::try_clone(&self.functions)?)
    }

    /// The calls with which the initial processes begin, in the order of their forms.
    pub fn entries(&self) -> &[Entry<A>]
        ensures value { map entry_of result.now ≡ (program_of self.now).entries }
        ensures few { length result.now ≤ 16 }
    {
        &self.entries
    }

    /// The control list.
    pub fn commands(&self) -> &[Command<A>]
        ensures { map command_of result.now ≡ (program_of self.now).commands }
    {
        &self.commands
    }

    /// How many sessions the control list creates.
    pub fn session_count(&self) -> usize
        ensures { result ≡ length (creations (program_of self.now).commands) }
    {
        count_sessions(&self.commands)
    }

    /// The name and the tracer of the session with this number, from 0, in the control list's order.
    pub fn session_at(&self, number: usize) -> Option<(&Atom<A>, &Atom<A>)>
        ensures { option_map name_pair result ≡ slice_get (creations (program_of self.now).commands) number }
    {
        find_session(&self.commands, number)
    }

    /// The name and the tracer of each session, in the control list's order. It takes no memory.
    pub fn sessions(&self) -> Sessions<'_, A>
        ensures { result ≡ creations (program_of self.now).commands }
    {
        sessions_of(&self.commands)
    }

    /// Whether both are the same program. It takes no memory.
    pub fn same(&self, other: &Program<A>) -> bool
        ensures { IsTrue result ↔ (program_of self.now ≡ program_of other.now) }
    {
        if !same_functions(self.functions(), other.functions()) {
            return false;
        }
        if !same_entries(&self.entries, &other.entries) {
            return false;
        }
        same_commands(&self.commands, &other.commands)
    }
}
