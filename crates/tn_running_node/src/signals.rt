// The processes that an exit signal has yet to end here.
ghost use Rattle.std.specs.Prelude.{◌≡◌, IfOk, map};
ghost use Rattle.std.specs.Option.{option_map};
ghost use Rattle.def_running_node.specs.NodeRuns.{signal_of, signals_with, without_signal, may_move, is_reported_exit};
ghost use Rattle.tn_running_node.specs.Views.{signal_seen, signals_seen};

use std::alloc::{AllocError, Allocator};

/// A process that gets an exit signal, and ends here at its next step: whether the reason is that of an error, and
/// whether its exit was reported on a node already.
#[derive(Clone, Copy, Debug, PartialEq, Eq, Drop)]
pub struct Signal {
    pub process: u32,
    pub of_error: bool,
    pub is_reported: bool,
}

/// The signal of a process, where it has one.
pub fn signal_of(signals: &[Signal], pid: u32) -> Option<Signal>
    ensures { option_map signal_seen result ≡ signal_of (map signal_seen signals.now) pid }
{
    for signal in signals {
        if signal.process == pid {
            return Some(*signal);
        }
    }
    None
}

/// Whether there is one whose exit was reported on a node already.
pub fn is_reported_exit(signal: Option<Signal>) -> bool
    ensures { result ≡ is_reported_exit (option_map signal_seen signal) }
{
    match signal {
        None => false,
        Some(signal) => signal.is_reported,
    }
}

/// One more signal; the first one of a process counts. An error is refused memory.
pub fn add_signal<A: Allocator>(
    signals: &mut Vec<Signal, A>,
    signal: Signal,
) -> Result<(), AllocError>
    ensures { IfOk result λ _. signals_seen signals.new ≡ signals_with (signal_seen signal) (signals_seen signals.old) }
{
    if signal_of(signals, signal.process).is_some() {
        return Ok(());
    }
    signals.push(signal)?;
    Ok(())
}

/// The process has no signal any more.
pub fn remove_signal<A: Allocator>(signals: &mut Vec<Signal, A>, pid: u32)
    ensures { signals_seen signals.new ≡ without_signal pid (signals_seen signals.old) }
{
    signals.retain(|signal| signal.process != pid);
}

/// Whether nobody has a signal, or the process that moves has one.
pub fn may_move(signals: &[Signal], pick: u32) -> bool
    ensures { result ≡ may_move (map signal_seen signals.now) pick }
{
    signals.is_empty() || signal_of(signals, pick).is_some()
}
