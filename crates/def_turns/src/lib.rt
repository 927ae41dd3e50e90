//! What turns are: slots, the run queue, the ends that hold slots, and the steps push and steal.
//!
//! Depends on the pids of terms. Promises, as laws, that each step keeps the rule that no slot is twice
//! in the queue and the views, that none is lost, that no slot is held by two ends, and that a step changes
//! no view but its own end's. All else is definition, for the crates above.
#![tactic(auto)]

ghost use Rattle.def_turns.specs.Laws.{EachSlotIsThereOnce, OpeningIsExclusive, StepsKeepTheRule, NoSlotIsLost};
ghost use Rattle.def_turns.specs.Laws.{EachSlotStaysOnce, NoSlotIsHeldByTwo};
ghost use Rattle.def_turns.specs.Laws.{PushChangesNoOtherView, StealChangesNoOtherView};

/// All slots are 0 and the 64 pids from 100 on, each once.
pub fn each_slot_is_there_once()
    ensures { EachSlotIsThereOnce }
{}

/// No slot is twice in the queue, in the queue and a view, or in two views: at first, and after each
/// step.
pub fn the_rule_is_kept()
    ensures opening { OpeningIsExclusive }
    ensures step { StepsKeepTheRule }
{}

/// A step neither loses a slot nor makes one. So whatever steps follow, each slot is once in the queue
/// or in a view.
pub fn no_slot_is_lost()
    ensures step { NoSlotIsLost }
    ensures run { EachSlotStaysOnce }
{}

/// No slot is held by two ends.
pub fn no_slot_is_held_by_two()
    ensures { NoSlotIsHeldByTwo }
{}

/// A push or a steal changes no view but that of the end that takes the step.
pub fn no_other_view_changes()
    ensures push { PushChangesNoOtherView }
    ensures steal { StealChangesNoOtherView }
{}
