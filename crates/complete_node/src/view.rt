// A process between two steps.
ghost use Rattle.std.specs.Prelude.{◌≡◌, map, reverse};
ghost use Rattle.std.specs.Option.{option_map};
ghost use Rattle.tn_term.specs.SharedTree.{shared_tree};
ghost use Rattle.tn_term.specs.Views.{tree_of};
ghost use Rattle.tn_script.specs.Views.{entry_of};
ghost use Rattle.tn_process.specs.Views.{frame_of, name_and_term, process_seen};

use std::alloc::Allocator;
use std::collections::VecDeque;
use tn_process::{Binding, Frame, Process};
use tn_script::Entry;
use tn_term::{Atom, SharedTerm, Term};

/// `tn_process::Process::entry` has one answer.
pub fn entry<'a, A: Allocator>(
    one: &'a Process<A>,
    other: &'a Process<A>,
) -> (Option<&'a Entry<A>>, Option<&'a Entry<A>>)
    requires { process_seen one.now ≡ process_seen other.now }
    ensures { option_map (λ e. entry_of e.now) result.0 ≡ option_map (λ e. entry_of e.now) result.1 }
{
    (one.entry(), other.entry())
}

/// `tn_process::Process::frames` has one answer.
pub fn frames<'a, A: Allocator>(
    one: &'a Process<A>,
    other: &'a Process<A>,
) -> (&'a [Frame<A>], &'a [Frame<A>])
    requires { process_seen one.now ≡ process_seen other.now }
    ensures { reverse (map frame_of result.0.now) ≡ reverse (map frame_of result.1.now) }
{
    (one.frames(), other.frames())
}

/// `tn_process::Process::mailbox` has one answer.
pub fn mailbox<'a, A: Allocator>(
    one: &'a Process<A>,
    other: &'a Process<A>,
) -> (
    &'a VecDeque<SharedTerm<A>, A>,
    &'a VecDeque<SharedTerm<A>, A>,
)
    requires { process_seen one.now ≡ process_seen other.now }
    ensures { map shared_tree result.0.now.items ≡ map shared_tree result.1.now.items }
{
    (one.mailbox(), other.mailbox())
}

/// `tn_process::Process::signal` has one answer.
pub fn signal<'a, A: Allocator>(
    one: &'a Process<A>,
    other: &'a Process<A>,
) -> (Option<&'a Term<A>>, Option<&'a Term<A>>)
    requires { process_seen one.now ≡ process_seen other.now }
    ensures { option_map (λ t. tree_of t.now) result.0 ≡ option_map (λ t. tree_of t.now) result.1 }
{
    (one.signal(), other.signal())
}

/// `tn_process::Frame::function` has one answer.
pub fn function<A: Allocator>(one: &Frame<A>, other: &Frame<A>) -> (usize, usize)
    requires { frame_of one.now ≡ frame_of other.now }
    ensures { result.0 ≡ result.1 }
{
    (one.function(), other.function())
}

/// `tn_process::Frame::place` has one answer.
pub fn place<A: Allocator>(one: &Frame<A>, other: &Frame<A>) -> (usize, usize)
    requires { frame_of one.now ≡ frame_of other.now }
    ensures { result.0 ≡ result.1 }
{
    (one.place(), other.place())
}

/// `tn_process::Frame::variables` has one answer.
pub fn variables<'a, A: Allocator>(
    one: &'a Frame<A>,
    other: &'a Frame<A>,
) -> (&'a [Binding<A>], &'a [Binding<A>])
    requires { frame_of one.now ≡ frame_of other.now }
    ensures { map name_and_term result.0.now ≡ map name_and_term result.1.now }
{
    (one.variables(), other.variables())
}

/// `tn_process::Binding::name` has one answer.
pub fn name<'a, A: Allocator>(
    one: &'a Binding<A>,
    other: &'a Binding<A>,
) -> (&'a Atom<A>, &'a Atom<A>)
    requires { name_and_term one.now ≡ name_and_term other.now }
    ensures { result.0.now ≡ result.1.now }
{
    (one.name(), other.name())
}

/// `tn_process::Binding::value` has one answer.
pub fn value<'a, A: Allocator>(
    one: &'a Binding<A>,
    other: &'a Binding<A>,
) -> (&'a Term<A>, &'a Term<A>)
    requires { name_and_term one.now ≡ name_and_term other.now }
    ensures { tree_of result.0.now ≡ tree_of result.1.now }
{
    (one.value(), other.value())
}
