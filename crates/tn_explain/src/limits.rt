// The limit that a step goes past, where it ends a process of which the session reports the exits.
ghost use Rattle.std.specs.Prelude.{◌≡◌, OnOk, map};
ghost use Rattle.std.specs.Option.{option_map};
ghost use Rattle.def_explain.specs.Accounts.{said};
ghost use Rattle.def_explain.specs.Limits.{said_of_error, limit_said};
ghost use Rattle.tn_flags.specs.Views.{event_of};
ghost use Rattle.tn_process.specs.Outlooks.{error_seen};
ghost use Rattle.tn_node.specs.Outlooks.{outlook_seen};
ghost use Rattle.tn_session.specs.Looks.{look_seen};
ghost use Rattle.tn_text.specs.Writes.{Grows};
ghost use Rattle.tn_explain.specs.Lines.{Adds};

use crate::line::Lines;
use std::alloc::{AllocError, Allocator};
use tn_flags::Event;
use tn_node::Outlook;
use tn_process::RuntimeError;
use tn_session::Look;

/// The error of the step, where the event is an exit that the session reports.
pub(crate) fn limit_at<A: Allocator + Copy>(
    look: &Look<'_, A>,
    outlook: Outlook,
    event: &Event<A>,
) -> Option<RuntimeError>
    ensures { said_of_error (option_map error_seen result) ≡
        limit_said (look_seen look.now) (outlook_seen outlook) (event_of event.now) }
{
    match event {
        Event::Exited { pid, .. } => {
            if look.flags_at(*pid).procs {
                outlook.error
            } else {
                None
            }
        }
        _ => None,
    }
}

impl<A: Allocator + Copy> Lines<'_, A> {
    /// Appends the line of the limit, where the error is of one.
    pub(crate) fn put_limit(
        &self,
        error: Option<RuntimeError>,
        out: &mut Vec<u8, A>,
    ) -> Result<(), AllocError>
        ensures ok { OnOk result
            (Adds self.now (map said (said_of_error (option_map error_seen error))) out.old out.new) }
        ensures grows { Grows out.old.items out.new.items }
    {
        match error {
            Some(RuntimeError::BuildsPastLimit) => self.say(
                b"past a limit: a term is at most 32 deep, and of at most 65536 parts",
                out,
            ),
            Some(RuntimeError::CallsPastLimit) => {
                self.say(b"past a limit: a process has at most 64 frames", out)
            }
            Some(RuntimeError::SpawnsPastLimit) => {
                self.say(b"past a limit: a run has at most 64 processes", out)
            }
            Some(RuntimeError::CallsNothing) => Ok(()),
            Some(RuntimeError::SendsToNoPid) => Ok(()),
            Some(RuntimeError::LinksToNoPid) => Ok(()),
            Some(RuntimeError::UnlinksFromNoPid) => Ok(()),
            None => Ok(()),
        }
    }
}
