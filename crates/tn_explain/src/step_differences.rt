// What a running node does otherwise by the step at an event.
ghost use Rattle.std.specs.Prelude.{◌≡◌, ◌∷◌, [], ◌&&◌, not, OnOk, None, map};
ghost use Rattle.std.specs.Option.{is_some};
ghost use Rattle.def_explain.specs.Accounts.{differs_uncounted};
ghost use Rattle.def_explain.specs.Differences.{is_traced, step_differs};
ghost use Rattle.def_explain.specs.Differences.{reports_attempt, catches_error, raises_noproc, adds_calls};
ghost use Rattle.def_explain.specs.Differences.{reports_exceptions, has_marked_frame, has_mark_below};
ghost use Rattle.def_term.specs.Alive.{is_alive};
ghost use Rattle.tn_flags.specs.Views.{event_of};
ghost use Rattle.tn_node.specs.Outlooks.{outlook_seen};
ghost use Rattle.tn_session.specs.Looks.{look_seen};
ghost use Rattle.tn_text.specs.Writes.{Grows};
ghost use Rattle.tn_difference.specs.Differences.{difference_seen};
ghost use Rattle.tn_explain.specs.LineParts.{step_where};
ghost use Rattle.tn_explain.specs.Lines.{Adds};
ghost use Rattle.tn_explain.specs.StepDifferences.{AreBefore, AreAfterEvent, is_reported_later, step_differences_seen};

use crate::differences::is_for_exceptions;
use crate::line::Lines;
use std::alloc::{AllocError, Allocator};
use tn_difference::Difference;
use tn_flags::{Event, Flags};
use tn_node::Outlook;
use tn_running_node::is_attempt_by;
use tn_session::Look;

/// The greatest depth of a frame.
const FRAMES: usize = 64;

/// Whether a process has a flag.
fn is_traced<A: Allocator + Copy>(look: &Look<'_, A>, pid: u32) -> bool
    ensures { result ≡ is_traced (look_seen look.now) pid }
{
    let flags = look.flags_at(pid);
    let none = Flags::none().has(flags);
    !none
}

/// Whether a process that has a flag links itself to one that isn't alive.
fn is_link_to_none<A: Allocator + Copy>(look: &Look<'_, A>, pid: u32, other: u32) -> bool
    ensures { let s = look_seen look.now in result ≡ (is_traced s pid && not (is_alive s.alive other)) }
{
    is_traced(look, pid) && !look.alive().has(other)
}

/// Whether the error `noproc` is raised in the step of a link.
fn raises_noproc<A: Allocator + Copy>(
    look: &Look<'_, A>,
    outlook: Outlook,
    event: &Event<A>,
) -> bool
    ensures { result ≡
        step_differs (look_seen look.now) (outlook_seen outlook) (event_of event.now) raises_noproc }
{
    match event {
        Event::Linked { pid, other } => is_link_to_none(look, *pid, *other),
        _ => false,
    }
}

/// Whether a node reports the step before the error by which a process ends.
fn is_attempt<A: Allocator + Copy>(look: &Look<'_, A>, outlook: Outlook, event: &Event<A>) -> bool
    ensures { result ≡
        step_differs (look_seen look.now) (outlook_seen outlook) (event_of event.now) reports_attempt }
{
    match event {
        Event::Exited { pid, .. } => is_attempt_by(look, *pid, outlook.error),
        _ => false,
    }
}

/// Whether a catch step called a frame of a process that has a flag, and that a run-time error ends.
fn is_caught_end<A: Allocator + Copy>(look: &Look<'_, A>, outlook: Outlook, pid: u32) -> bool
    ensures { let l = outlook_seen outlook in
        result ≡ (is_traced (look_seen look.now) pid && (is_some l.error && is_some l.caught_at)) }
{
    is_traced(look, pid) && (outlook.error.is_some() && outlook.caught_at.is_some())
}

/// Whether a catch catches the error by which a process ends.
fn is_caught<A: Allocator + Copy>(look: &Look<'_, A>, outlook: Outlook, event: &Event<A>) -> bool
    ensures { result ≡
        step_differs (look_seen look.now) (outlook_seen outlook) (event_of event.now) catches_error }
{
    match event {
        Event::Exited { pid, .. } => is_caught_end(look, outlook, *pid),
        _ => false,
    }
}

/// Whether a run-time error ends a process that has a flag.
fn adds_calls<A: Allocator + Copy>(look: &Look<'_, A>, outlook: Outlook, event: &Event<A>) -> bool
    ensures { result ≡
        step_differs (look_seen look.now) (outlook_seen outlook) (event_of event.now) adds_calls }
{
    match event {
        Event::Exited { pid, .. } => is_traced(look, *pid) && outlook.error.is_some(),
        _ => false,
    }
}

/// Whether one of the first so many depths of a process is marked for exceptions.
fn has_mark_below<A: Allocator + Copy>(look: &Look<'_, A>, pid: u32, depths: usize) -> bool
    ensures { result ≡ has_mark_below (look_seen look.now) pid depths }
{
    for above in 0..depths {
        if is_for_exceptions(look, pid, depths - 1 - above) {
            return true;
        }
    }
    false
}

/// Whether a process that has the flag `call` has a frame that is marked for exceptions.
fn has_marked_frame<A: Allocator + Copy>(look: &Look<'_, A>, pid: u32) -> bool
    ensures { result ≡ has_marked_frame (look_seen look.now) pid }
{
    look.flags_at(pid).call && has_mark_below(look, pid, FRAMES + 1)
}

/// Whether a run-time error ends a process that has a call which is marked for exceptions.
fn reports_exceptions<A: Allocator + Copy>(
    look: &Look<'_, A>,
    outlook: Outlook,
    event: &Event<A>,
) -> bool
    ensures { result ≡
        step_differs (look_seen look.now) (outlook_seen outlook) (event_of event.now) reports_exceptions }
{
    match event {
        Event::Exited { pid, .. } => outlook.error.is_some() && has_marked_frame(look, *pid),
        _ => false,
    }
}

/// Whether a receive is reported whose process doesn't wait.
fn is_reported_later<A: Allocator>(outlook: Outlook, event: &Event<A>, reported: bool) -> bool
    ensures { result ≡ is_reported_later (outlook_seen outlook) (event_of event.now) reported }
{
    match event {
        Event::Received { .. } => !outlook.is_awaited && reported,
        _ => false,
    }
}

/// What a node does otherwise by the step at an event: whether it reports the step before its error, whether a catch
/// catches the error, whether the step of a link raises `noproc`, whether a receive is reported later, whether the
/// reason of the end has the list of calls, and whether exceptions of calls are reported first.
#[derive(Clone, Copy)]
pub(crate) struct StepDifferences {
    pub attempt: bool,
    pub caught: bool,
    pub noproc: bool,
    pub later: bool,
    pub calls: bool,
    pub exceptions: bool,
}

impl StepDifferences {
    /// What is known of it before the session sees the event.
    pub fn of<A: Allocator + Copy>(
        look: &Look<'_, A>,
        outlook: Outlook,
        event: &Event<A>,
    ) -> StepDifferences
        ensures { AreBefore (look_seen look.now) (outlook_seen outlook) (event_of event.now) result }
    {
        StepDifferences {
            attempt: is_attempt(look, outlook, event),
            caught: is_caught(look, outlook, event),
            noproc: raises_noproc(look, outlook, event),
            later: false,
            calls: adds_calls(look, outlook, event),
            exceptions: reports_exceptions(look, outlook, event),
        }
    }

    /// What is known of it afterwards, by whether the event is reported.
    pub fn after<A: Allocator>(
        self,
        outlook: Outlook,
        event: &Event<A>,
        reported: bool,
    ) -> StepDifferences
        ensures { AreAfterEvent (outlook_seen outlook) (event_of event.now) reported self result }
    {
        StepDifferences {
            attempt: self.attempt,
            caught: self.caught,
            noproc: self.noproc,
            later: is_reported_later(outlook, event, reported),
            calls: self.calls,
            exceptions: self.exceptions,
        }
    }
}

impl<A: Allocator + Copy> Lines<'_, A> {
    /// Appends the line of a difference by the step, where it is one.
    fn put_where_steps(
        &self,
        holds: bool,
        difference: Difference,
        out: &mut Vec<u8, A>,
    ) -> Result<(), AllocError>
        ensures ok { OnOk result (Adds self.now (step_where holds (difference_seen difference)) out.old out.new) }
        ensures grows { Grows out.old.items out.new.items }
    {
        self.put_where_differs(holds, difference, out)
    }

    /// Appends the lines of the differences by the step at an event.
    pub(crate) fn put_step_differences(
        &self,
        steps: StepDifferences,
        out: &mut Vec<u8, A>,
    ) -> Result<(), AllocError>
        ensures ok { OnOk result (Adds self.now (map differs_uncounted (step_differences_seen steps)) out.old out.new) }
        ensures grows { Grows out.old.items out.new.items }
    {
        self.put_where_steps(steps.attempt, Difference::ReportsAttempt, out)?;
        self.put_where_steps(steps.caught, Difference::CatchesError, out)?;
        self.put_where_steps(steps.noproc, Difference::RaisesNoproc, out)?;
        self.put_where_steps(steps.later, Difference::ReportsLater, out)?;
        self.put_where_steps(steps.calls, Difference::AddsCalls, out)?;
        self.put_where_steps(steps.exceptions, Difference::ReportsExceptions, out)
    }
}
