// What is said on standard error of a refusal or a fault, and of what a running node does otherwise.
ghost use Rattle.std.specs.Prelude.{◌≡◌, ◌≢◌, codes, IfOk};
ghost use Rattle.def_notice.specs.NoticeTexts.{node_moves};
ghost use Rattle.tn_notice.specs.FaultViews.{command_fault_seen};
ghost use Rattle.tn_notice.specs.NoticeViews.{command_seen_of, notice_seen};
ghost use Rattle.def_wording.specs.SyntaxTexts.{of_script};
ghost use Rattle.tn_refusal.specs.Lines.{IsExplained};
ghost use Rattle.tn_refusal.specs.Refusals.{refusal_of};
ghost use Rattle.tn_command.specs.Notices.{live_fault_said, run_fault_said};

use std::alloc::{AllocError, Global};
use tn_notice::{CommandFault, NodeCommand, Notice, print_line};
use tn_refusal::explain;
use tn_replay::NodeNote;
use tn_run::{LiveFault, Refusal, RunFault};

/// A text, and the name that it goes by.
#[derive(Clone, Copy)]
pub struct NamedText<'a> {
    pub name: &'a str,
    pub bytes: &'a [u8],
}

/// The line that says how the refused text can be fixed: the script, or for refusal 20 the picks.
fn refusal_line(
    alloc: Global,
    refusal: Refusal,
    script: NamedText<'_>,
    picks: &[u8],
) -> Result<Vec<u8>, AllocError>
    ensures picks { refusal ≡ Refusal.BadPicks → IfOk result (λ v.
        IsExplained of_script (codes "picks") picks.now (refusal_of refusal) v.items) }
    ensures script { refusal ≢ Refusal.BadPicks → IfOk result (λ v.
        IsExplained of_script script.entry.name.now script.entry.bytes.now (refusal_of refusal) v.items) }
{
    match refusal {
        Refusal::BadPicks => explain(alloc, "picks", picks, refusal),
        _ => explain(alloc, script.name, script.bytes, refusal),
    }
}

/// Says in one line how the refused text can be fixed. Where memory for that is refused, the refusal stands alone.
pub fn tell_refusal<R: Eprint + AllocGlobal>(
    rt: &R,
    refusal: Refusal,
    script: NamedText<'_>,
    picks: &[u8],
) {
    if let Ok(line) = refusal_line(rt.alloc(), refusal, script, picks) {
        print_line(rt, &line);
    }
}

/// What fault of a command a fault of a run is.
pub fn run_fault(fault: RunFault) -> CommandFault
    ensures { command_fault_seen result ≡ run_fault_said fault }
{
    match fault {
        RunFault::Read => CommandFault::Read,
        RunFault::Write { written } => CommandFault::Write { written },
        RunFault::OutOfMemory => CommandFault::Memory,
    }
}

/// What fault of a command a fault of a run by workers is.
pub(crate) fn live_fault(fault: LiveFault) -> CommandFault
    ensures { command_fault_seen result ≡ live_fault_said fault }
{
    match fault {
        LiveFault::Run(fault) => run_fault(fault),
        LiveFault::Pool(_) => CommandFault::Workers,
    }
}

/// At how many moves of a run a running node differs, and which command shows them.
pub(crate) fn node_notice(note: NodeNote, command: NodeCommand) -> Notice<'static>
    ensures { notice_seen result ≡ node_moves note.differing note.moves (command_seen_of command) }
{
    Notice::NodeMoves {
        differing: note.differing,
        moves: note.moves,
        command,
    }
}
