//! What the node is: events, templates, one process, all processes, and one pick.
//!
//! Depends on terms and on programs. What a process does by itself is one definition (`Process`), what
//! that does to the other processes another (`Node`). Promises, as laws, that a pick which gives nothing
//! changes nothing, that the limits of 64 processes and 64 frames are kept, that no pid is used again,
//! that a pick of the control list changes no process, that events are about processes of the run, and
//! which frames an exception leaves, where it is caught, and how it ends a process that doesn't catch it.
//! All else is definition, for every crate above.
#![tactic(auto)]

ghost use Rattle.def_node.specs.Laws.{IdleLeavesTheProcesses, IdleLeavesTheState, OpeningIsWithin, StepsStayWithin};
ghost use Rattle.def_node.specs.Laws.{NoPidIsUsedAgain, ControlChangesNoProcess, EventsAreOfTheRun};
ghost use Rattle.def_node.specs.Laws.{LeavesDownToACatch, LeavesAllFrames, LeftHaveTheirDepths};
ghost use Rattle.def_node.specs.Laws.{RaiseIsCaughtOrNot, CaughtRaiseGoesOn};
ghost use Rattle.def_node.specs.Laws.{UncaughtErrorEnds, UncaughtExitEnds, UncaughtThrowIsAnError};

/// A pick that gives nothing leaves all processes, and the place in the control list, as they were.
pub fn idle_changes_nothing()
    ensures processes { IdleLeavesTheProcesses }
    ensures state { IdleLeavesTheState }
{}

/// At most 64 processes are started, and each has at most 64 frames, of which no catch step called the
/// oldest, and links to those processes alone.
pub fn limits_are_kept()
    ensures opening { OpeningIsWithin }
    ensures step { StepsStayWithin }
{}

/// The number of processes that were started never falls, and one that has exited never comes back.
pub fn no_pid_is_used_again()
    ensures { NoPidIsUsedAgain }
{}

/// A pick of the control list changes no process.
pub fn control_changes_no_process()
    ensures { ControlChangesNoProcess }
{}

/// Each event is about a process with one of the pids 100 to 163; so is the parent of a spawned process,
/// the one that linked itself, and a partner that exited.
pub fn events_are_of_the_run()
    ensures { EventsAreOfTheRun }
{}

/// An exception leaves the frames from the newest down to the first that a catch step called, and that one
/// too, or all where a catch step called none; each has its depth.
pub fn a_raise_leaves_frames()
    ensures caught { LeavesDownToACatch }
    ensures uncaught { LeavesAllFrames }
    ensures depths { LeftHaveTheirDepths }
{}

/// The process goes on after the catch step that called the last frame which is left, and its target gets
/// what the class says. Where no catch step called a frame, an error or an exit ends the process, and a
/// throw is the error `nocatch`. One of the two holds, since no catch step calls the oldest frame.
pub fn a_raise_goes_on_or_ends_the_process()
    ensures either { RaiseIsCaughtOrNot }
    ensures caught { CaughtRaiseGoesOn }
    ensures error { UncaughtErrorEnds }
    ensures exit { UncaughtExitEnds }
    ensures throw { UncaughtThrowIsAnError }
{}
