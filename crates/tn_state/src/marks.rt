// The marks of frames.
ghost use Rattle.std.specs.Prelude.{◌≡◌, ◌++◌, OnOk, IfOk, flat_map};
ghost use Rattle.std.specs.Option.{option_map};
ghost use Rattle.def_session.specs.State as definition;
ghost use Rattle.def_state.specs.SessionTexts.{depths, mark_term, frame_mark_text, marks_text_at, mark_texts};
ghost use Rattle.tn_session.specs.Looks.{look_seen};
ghost use Rattle.tn_session.specs.Views.{mark_kind_seen};
ghost use Rattle.tn_term.specs.Views.{tree_of};

use crate::line::{frame_term, put_line};
use std::alloc::{AllocError, Allocator};
use tn_session::{Kind, Look};
use tn_term::Term;

/// The action that makes such a mark.
fn mark_term<A: Allocator + Copy>(alloc: A, kind: Kind) -> Result<Term<A>, AllocError>
    ensures { IfOk result (λ t. tree_of t ≡ mark_term (mark_kind_seen kind)) }
{
    match kind {
        Kind::Returns => Term::word(alloc, "return_trace"),
        Kind::Exceptions => Term::word(alloc, "exception_trace"),
    }
}

/// Appends the mark of a frame, where it has one.
fn put_mark<A: Allocator + Copy>(
    alloc: A,
    pid: u32,
    depth: u32,
    kind: Option<Kind>,
    out: &mut Vec<u8, A>,
) -> Result<(), AllocError>
    ensures { OnOk result (out.new.items ≡ out.old.items ++
        frame_mark_text pid depth (option_map mark_kind_seen kind)) }
{
    let Some(kind) = kind else {
        return Ok(());
    };
    let mut others = Vec::new(alloc);
    others.push(frame_term(alloc, depth)?)?;
    others.push(mark_term(alloc, kind)?)?;
    let owner = Term::Pid(pid);
    put_line(&owner, &others, out)
}

/// Appends the marks of a process.
fn put_marks_of<A: Allocator + Copy>(
    alloc: A,
    look: &Look<'_, A>,
    pid: u32,
    out: &mut Vec<u8, A>,
) -> Result<(), AllocError>
    ensures { OnOk result (out.new.items ≡ out.old.items ++
        flat_map (λ d. frame_mark_text pid d (definition.mark_of (look_seen look.now) pid d)) depths) }
{
    for depth in 1..65u32 {
        put_mark(alloc, pid, depth, look.mark_of(pid, depth as usize), out)?;
    }
    Ok(())
}

/// Appends the marks of a process, where it lives.
fn put_marks_at<A: Allocator + Copy>(
    alloc: A,
    look: &Look<'_, A>,
    pid: u32,
    out: &mut Vec<u8, A>,
) -> Result<(), AllocError>
    ensures { OnOk result (out.new.items ≡ out.old.items ++ marks_text_at (look_seen look.now) pid) }
{
    if look.alive().has(pid) {
        put_marks_of(alloc, look, pid, out)
    } else {
        Ok(())
    }
}

/// Appends the marks of each process.
pub(crate) fn put_all_marks<A: Allocator + Copy>(
    alloc: A,
    look: &Look<'_, A>,
    out: &mut Vec<u8, A>,
) -> Result<(), AllocError>
    ensures { OnOk result (out.new.items ≡ out.old.items ++ mark_texts (look_seen look.now)) }
{
    for pid in 100..164u32 {
        put_marks_at(alloc, look, pid, out)?;
    }
    Ok(())
}
