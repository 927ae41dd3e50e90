// The frames that a running node has marked.
ghost use Rattle.std.specs.Prelude.{◌≡◌, ◌==◌, not, IfOk, map};
ghost use Rattle.std.specs.List.{filter};
ghost use Rattle.std.specs.Option.{option_map};
ghost use Rattle.def_running_node.specs.NodeSessions.{is_mark_at, kind_at, with_mark, without_mark, without_marks};
ghost use Rattle.def_running_node.specs.NodeSessions.{marks_after};
ghost use Rattle.def_session.specs.Session.{is_for_exceptions};
ghost use Rattle.tn_flags.specs.Views.{call_seen, event_of};
ghost use Rattle.tn_session.specs.Looks.{look_seen};
ghost use Rattle.tn_session.specs.Views.{mark_kind_seen};
ghost use Rattle.tn_running_node.specs.Views.{node_mark_seen, node_marks_seen};

use std::alloc::{AllocError, Allocator};
use tn_flags::{Call, Event};
use tn_session::{Kind, Look};
use tn_term::Mfa;

/// A frame that a running node has marked: its process, its depth, what the mark is for, and the function that was
/// called.
#[derive(Drop)]
pub struct NodeMark<A: Allocator> {
    pub process: u32,
    pub depth: usize,
    pub kind: Kind,
    pub mfa: Mfa<A>,
}

impl<A: Allocator> NodeMark<A> {
    /// Whether it is the mark of the frame of this process and depth.
    fn is_at(&self, pid: u32, depth: usize) -> bool
        ensures { result ≡ is_mark_at pid depth (node_mark_seen self.now) }
    {
        self.process == pid && self.depth == depth
    }
}

/// What the mark of this frame is for, where it has one.
pub fn kind_at<A: Allocator>(marks: &[NodeMark<A>], pid: u32, depth: usize) -> Option<Kind>
    ensures { option_map mark_kind_seen result ≡ kind_at (map node_mark_seen marks.now) pid depth }
{
    for mark in marks {
        if mark.is_at(pid, depth) {
            return Some(mark.kind);
        }
    }
    None
}

/// Whether the mark is for exceptions.
pub fn is_for_exceptions(kind: Option<Kind>) -> bool
    ensures { result ≡ is_for_exceptions (option_map mark_kind_seen kind) }
{
    match kind {
        Some(Kind::Exceptions) => true,
        Some(Kind::Returns) | None => false,
    }
}

/// The call gets the mark that is asked for, unless it is silent. An error is refused memory.
pub fn add_mark<A: Allocator + Copy>(
    alloc: A,
    marks: &mut Vec<NodeMark<A>, A>,
    pid: u32,
    call: &Call<A>,
    silent: bool,
    kind: Option<Kind>,
) -> Result<(), AllocError>
    ensures { IfOk result (λ _. node_marks_seen marks.new ≡
        with_mark (node_marks_seen marks.old) pid (call_seen call.now) silent (option_map mark_kind_seen kind)) }
{
    if silent {
        return Ok(());
    }
    let Some(kind) = kind else {
        return Ok(());
    };
    marks.push(NodeMark {
        process: pid,
        depth: call.depth,
        kind,
        mfa: call.mfa.copy_into(alloc)?,
    })?;
    Ok(())
}

/// The frame has no mark any more.
pub fn remove_mark<A: Allocator>(marks: &mut Vec<NodeMark<A>, A>, pid: u32, depth: usize)
    ensures { node_marks_seen marks.new ≡ without_mark (node_marks_seen marks.old) pid depth }
{
    marks.retain(|mark| !mark.is_at(pid, depth));
}

/// No frame of the process has a mark any more.
pub fn remove_marks<A: Allocator>(marks: &mut Vec<NodeMark<A>, A>, pid: u32)
    ensures { node_marks_seen marks.new ≡ without_marks (node_marks_seen marks.old) pid }
{
    marks.retain(|mark| mark.process != pid);
}

/// The marks after an event, after which the session is seen. An error is refused memory.
pub fn change_marks<A: Allocator + Copy>(
    alloc: A,
    marks: &mut Vec<NodeMark<A>, A>,
    look: &Look<'_, A>,
    event: &Event<A>,
) -> Result<(), AllocError>
    ensures { IfOk result (λ _. node_marks_seen marks.new ≡
        marks_after (look_seen look.now) (node_marks_seen marks.old) (event_of event.now)) }
{
    match event {
        Event::Called { pid, call } => {
            let silent = look.flags_at(*pid).silent;
            add_mark(
                alloc,
                marks,
                *pid,
                call,
                silent,
                look.mark_of(*pid, call.depth),
            )
        }
        Event::Returned { pid, depth, .. } | Event::Raised { pid, depth, .. } => {
            remove_mark(marks, *pid, *depth);
            Ok(())
        }
        Event::Exited { pid, .. } => {
            remove_marks(marks, *pid);
            Ok(())
        }
        _ => Ok(()),
    }
}
