// The picks by which a node may move, found without a step.
ghost use Rattle.std.specs.Prelude.{◌≡◌, IfOk, Some, length, map};
ghost use Rattle.std.specs.List.{filter};
ghost use Rattle.tn_script.specs.Views.{functions_of};
ghost use Rattle.tn_program.specs.Views.{program_of};
ghost use Rattle.tn_node.specs.Nodes.{slots_in, taken_in};
ghost use Rattle.tn_node.specs.Worlds.{slot_of};
ghost use Rattle.tn_search.specs.ReadyPicks.{has_command_left, is_ready, is_ready_pid, is_ready_in, may_move_by};

use std::alloc::{AllocError, Allocator};
use std::sync::Arc;
use tn_node::Node;
use tn_process::Process;
use tn_program::Program;
use tn_script::Function;
use tn_term::FIRST_PID;

/// Whether a command of the control list is left.
pub(crate) fn has_command_left<A: Allocator + Copy>(program: &Program<A>, node: &Node<A>) -> bool
    ensures { result ≡ has_command_left (length (program_of program.now).commands) (taken_in node.now) }
{
    match node.commands_taken() {
        Some(taken) => taken < program.commands().len(),
        None => false,
    }
}

/// Whether a process is there and doesn't wait.
fn is_ready<A: Allocator + Copy>(
    functions: &[Function<A>],
    slot: &Option<Arc<Process<A>, A>>,
) -> bool
    ensures { result ≡ is_ready (functions_of functions.now) (Some (slot_of slot.now)) }
{
    match slot {
        Some(process) => !process.is_waiting(functions),
        None => false,
    }
}

/// The same of the process with this pid.
fn is_ready_pid<A: Allocator + Copy>(
    functions: &[Function<A>],
    slots: &[Option<Arc<Process<A>, A>>],
    pid: u32,
) -> bool
    ensures { result ≡ is_ready_pid (functions_of functions.now) (map slot_of slots.now) pid }
{
    if pid < FIRST_PID {
        return false;
    }
    let place = (pid - FIRST_PID) as usize;
    if place >= slots.len() {
        return false;
    }
    is_ready(functions, &slots[place])
}

/// The same of the process of a node; false where the node is spent.
fn is_ready_in<A: Allocator + Copy>(functions: &[Function<A>], node: &Node<A>, pid: u32) -> bool
    ensures { result ≡ is_ready_in (functions_of functions.now) (slots_in node.now) pid }
{
    match node.processes() {
        Some(slots) => is_ready_pid(functions, slots, pid),
        None => false,
    }
}

/// Whether a node of the program may move by a pick: a command is left, or the process that is picked doesn't wait.
fn may_move_by<A: Allocator + Copy>(program: &Program<A>, node: &Node<A>, pick: u32) -> bool
    ensures { result ≡ may_move_by (program_of program.now) node.now pick }
{
    if pick == 0 {
        return has_command_left(program, node);
    }
    is_ready_in(program.functions(), node, pick)
}

/// Those of some picks by which a node of the program may move.
pub(crate) fn ready_picks<A: Allocator + Copy>(
    alloc: A,
    program: &Program<A>,
    node: &Node<A>,
    picks: &[u32],
) -> Result<Vec<u32, A>, AllocError>
    ensures { IfOk result (λ v. v.items ≡ filter (may_move_by (program_of program.now) node.now) picks.now) }
{
    let mut ready = Vec::new(alloc);
    for pick in picks {
        if may_move_by(program, node, *pick) {
            ready.push(*pick)?;
        }
    }
    Ok(ready)
}
