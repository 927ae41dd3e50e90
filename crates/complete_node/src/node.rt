// The node, as a run sees it.
ghost use Rattle.std.specs.Prelude.{◌≡◌, None, IfOk, IsErr, OnErr, map};
ghost use Rattle.std.specs.Option.{option_map};
ghost use Rattle.tn_program.specs.Views.{program_of};
ghost use Rattle.tn_node.specs.Nodes.{moved_seen};
ghost use Rattle.tn_node.specs.Outlooks.{outlook_seen};
ghost use Rattle.tn_node.specs.Worlds.{slot_of};

use std::alloc::{AllocError, Allocator};
use std::sync::Arc;
use tn_node::{Moved, Node, Outlook};
use tn_process::Process;
use tn_program::Program;

/// `tn_node::Node::new` has one answer.
pub fn new<A: Allocator + Copy>(
    alloc: A,
    one: &Program<A>,
    other: &Program<A>,
) -> (Result<Node<A>, AllocError>, Result<Node<A>, AllocError>)
    requires { program_of one.now ≡ program_of other.now }
    ensures { IfOk result.0 (λ n. IfOk result.1 (λ k. n ≡ k)) }
{
    (Node::new(alloc, one), Node::new(alloc, other))
}

/// `tn_node::Node::step` has one answer. It includes the node afterwards.
pub fn step<A: Allocator + Copy>(
    one: &mut Node<A>,
    other: &mut Node<A>,
    pick: u32,
) -> (Result<Moved<A>, AllocError>, Result<Moved<A>, AllocError>)
    requires { one.old ≡ other.old }
    ensures answer { IfOk result.0 (λ m. IfOk result.1 (λ k. (one.new ≡ other.new) × (moved_seen m ≡ moved_seen k))) }
    ensures refused { OnErr result.0 (one.new ≡ None) }
    ensures spent { one.old ≡ None → IsErr result.0 }
{
    let first = one.step(pick);
    let second = other.step(pick);
    (first, second)
}

/// `tn_node::Node::share` has one answer.
pub fn share<A: Allocator + Copy>(
    one: &Node<A>,
    other: &Node<A>,
) -> (Result<Node<A>, AllocError>, Result<Node<A>, AllocError>)
    requires { one.now ≡ other.now }
    ensures { IfOk result.0 (λ n. IfOk result.1 (λ k. n ≡ k)) }
{
    (one.share(), other.share())
}

/// `tn_node::Node::same` has one answer.
pub fn same<A: Allocator + Copy>(one: &Node<A>, other: &Node<A>, node: &Node<A>) -> (bool, bool)
    requires { one.now ≡ other.now }
    ensures { result.0 ≡ result.1 }
{
    (one.same(node), other.same(node))
}

/// `tn_node::Node::outlook` has one answer.
pub fn outlook<A: Allocator + Copy>(one: &Node<A>, other: &Node<A>, pick: u32) -> (Outlook, Outlook)
    requires { one.now ≡ other.now }
    ensures { outlook_seen result.0 ≡ outlook_seen result.1 }
{
    (one.outlook(pick), other.outlook(pick))
}

/// `tn_node::Outlook::nothing` has one answer.
pub fn nothing() -> (Outlook, Outlook)
    ensures { outlook_seen result.0 ≡ outlook_seen result.1 }
{
    (Outlook::nothing(), Outlook::nothing())
}

/// `tn_node::Node::processes` has one answer.
pub fn processes<'a, A: Allocator + Copy>(
    one: &'a Node<A>,
    other: &'a Node<A>,
) -> (
    Option<&'a [Option<Arc<Process<A>, A>>]>,
    Option<&'a [Option<Arc<Process<A>, A>>]>,
)
    requires { one.now ≡ other.now }
    ensures { option_map (λ ss. map slot_of ss.now) result.0 ≡ option_map (λ ss. map slot_of ss.now) result.1 }
{
    (one.processes(), other.processes())
}

/// `tn_node::Node::commands_taken` has one answer.
pub fn commands_taken<A: Allocator + Copy>(
    one: &Node<A>,
    other: &Node<A>,
) -> (Option<usize>, Option<usize>)
    requires { one.now ≡ other.now }
    ensures { result.0 ≡ result.1 }
{
    (one.commands_taken(), other.commands_taken())
}
