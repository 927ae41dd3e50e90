// What is seen of a process between two steps.
use crate::env::Binding;
use crate::process::{Frame, Process};
use std::alloc::Allocator;
use std::collections::VecDeque;
use tn_script::Entry;
use tn_term::{Atom, SharedTerm, Term};

impl<A: Allocator> Process<A> {
    ghost use Rattle.std.specs.Prelude.{◌≡◌, map, reverse};
    ghost use Rattle.std.specs.Option.{option_map};
    ghost use Rattle.tn_term.specs.Views.{tree_of};
    ghost use Rattle.tn_term.specs.SharedTree.{shared_tree};
    ghost use Rattle.tn_script.specs.Views.{entry_of};
    ghost use Rattle.tn_process.specs.Views.{frame_of, process_seen};

    /// The call with which it begins, where that is still to be made.
    pub fn entry(&self) -> Option<&Entry<A>>
        ensures { option_map (λ e. entry_of e.now) result ≡ (process_seen self.now).entry }
    {
        match &self.entry {
            Some(entry) => Some(entry),
            None => None,
        }
    }

    /// Its frames, the oldest first.
    pub fn frames(&self) -> &[Frame<A>]
        ensures { reverse (map frame_of result.now) ≡ (process_seen self.now).frames }
    {
        &self.frames
    }

    /// Its mailbox, in the order of arrival.
    pub fn mailbox(&self) -> &VecDeque<SharedTerm<A>, A>
        ensures { map shared_tree result.now.items ≡ (process_seen self.now).mailbox }
    {
        &self.mailbox
    }

    /// The reason of the exit signal that is pending.
    pub fn signal(&self) -> Option<&Term<A>>
        ensures { option_map (λ t. tree_of t.now) result ≡ (process_seen self.now).signal }
    {
        match &self.signal {
            Some(reason) => Some(reason),
            None => None,
        }
    }
}

impl<A: Allocator> Frame<A> {
    ghost use Rattle.std.specs.Prelude.{◌≡◌, map};
    ghost use Rattle.tn_process.specs.Views.{name_and_term, frame_of};

    /// The number of its function.
    pub fn function(&self) -> usize
        ensures { result ≡ (frame_of self.now).function }
    {
        self.function
    }

    /// How many of its steps are done.
    pub fn place(&self) -> usize
        ensures { result ≡ (frame_of self.now).place }
    {
        self.place
    }

    /// The values of its variables, the oldest first.
    pub fn variables(&self) -> &[Binding<A>]
        ensures { map name_and_term result.now ≡ (frame_of self.now).env }
    {
        &self.env.values
    }
}

impl<A: Allocator> Binding<A> {
    ghost use Rattle.std.specs.Prelude.{◌≡◌};
    ghost use Rattle.tn_term.specs.Views.{tree_of};
    ghost use Rattle.tn_process.specs.Views.{name_and_term};

    /// The variable.
    pub fn name(&self) -> &Atom<A>
        ensures { result.now ≡ (name_and_term self.now).0 }
    {
        &*self.name
    }

    /// Its value.
    pub fn value(&self) -> &Term<A>
        ensures { tree_of result.now ≡ (name_and_term self.now).1 }
    {
        self.value.term()
    }
}
