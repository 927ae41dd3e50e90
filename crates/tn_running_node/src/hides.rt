// Whether an exit hides a message that a node reports before it.
ghost use Rattle.std.specs.Prelude.{◌≡◌};
ghost use Rattle.std.specs.Option.{option_map};
ghost use Rattle.def_explain.specs.Differences.{is_attempt_by};
ghost use Rattle.def_running_node.specs.NodeRuns.{hides};
ghost use Rattle.tn_flags.specs.Views.{event_of};
ghost use Rattle.tn_process.specs.Outlooks.{error_seen};
ghost use Rattle.tn_node.specs.Outlooks.{outlook_seen};
ghost use Rattle.tn_session.specs.Looks.{look_seen};

use std::alloc::Allocator;
use tn_flags::Event;
use tn_node::Outlook;
use tn_process::RuntimeError;
use tn_session::Look;

/// Whether a process has the flag by which a node reports a step with this error.
pub fn is_attempt_by<A: Allocator + Copy>(
    look: &Look<'_, A>,
    pid: u32,
    error: Option<RuntimeError>,
) -> bool
    ensures { result ≡ is_attempt_by (look_seen look.now) pid (option_map error_seen error) }
{
    match error {
        Some(RuntimeError::SendsToNoPid) => look.flags_at(pid).send,
        Some(RuntimeError::LinksToNoPid) => look.flags_at(pid).procs,
        Some(RuntimeError::UnlinksFromNoPid) => look.flags_at(pid).procs,
        Some(RuntimeError::CallsNothing) => false,
        Some(RuntimeError::BuildsPastLimit) => false,
        Some(RuntimeError::CallsPastLimit) => false,
        Some(RuntimeError::SpawnsPastLimit) => false,
        None => false,
    }
}

/// Whether an exit hides a message that a node has before it: that of the send, link or unlink of what is no pid.
pub fn hides<A: Allocator + Copy>(look: &Look<'_, A>, outlook: Outlook, event: &Event<A>) -> bool
    ensures { result ≡ hides (look_seen look.now) (outlook_seen outlook) (event_of event.now) }
{
    match event {
        Event::Exited { pid, .. } => is_attempt_by(look, *pid, outlook.error),
        _ => false,
    }
}
