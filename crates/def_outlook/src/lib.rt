//! What is known of the next step of a process before it is made: whether it is a run-time error, whether a catch step
//! called one of the frames, whether the process that it sends to waits, and whether it links the process with itself
//! or unlinks it from itself.
//!
//! Depends on the processes of `def_node`. Promises, as laws, that it is a run-time error exactly where the process
//! ends by it with no other event and without an exit signal, and with the reason of the error; that one of a limit is
//! of the limit that is passed; that a process waits exactly where it can't move; that a send goes to the pid that is
//! said; that a process is said to link to itself or to unlink from itself exactly where it does so, and that the move
//! then has no event; and that the newest frame that a catch step called has the depth that is said. There is no code.
#![tactic(auto)]

ghost use Rattle.def_outlook.specs.Laws.{ErrorEndsTheProcess, SuddenEndIsAnError, WaitingIsOfTheAct};
ghost use Rattle.def_outlook.specs.Laws.{ErrorIsOfItsLimit, SendGoesToTheAddressee};
ghost use Rattle.def_outlook.specs.Laws.{OwnLinkIsOfTheAct, OwnActIsAnOwnLink, OwnLinkHasNoEvent};
ghost use Rattle.def_outlook.specs.Laws.{CatchHasItsDepth, NoCatchNoDepth};

/// What is known of the next step of a process before it is made is what the step does: it is a run-time error exactly
/// where the process ends with no other event and without an exit signal, and the reason is that of the error; one of
/// a limit is of the limit that is passed; the process waits exactly where it can't move; a send goes to the pid that
/// is said; a process is said to link to itself or to unlink from itself exactly where it does so, and the move then
/// has no event; and the newest frame that a catch step called has the depth that is said.
pub fn an_outlook_is_of_the_next_step()
    ensures error { ErrorEndsTheProcess }
    ensures sudden { SuddenEndIsAnError }
    ensures limit { ErrorIsOfItsLimit }
    ensures waits { WaitingIsOfTheAct }
    ensures send { SendGoesToTheAddressee }
    ensures own { OwnLinkIsOfTheAct }
    ensures own_act { OwnActIsAnOwnLink }
    ensures no_event { OwnLinkHasNoEvent }
    ensures caught { CatchHasItsDepth }
    ensures uncaught { NoCatchNoDepth }
{}
