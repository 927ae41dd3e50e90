// One session of a run.
ghost use Rattle.std.specs.Prelude.{◌≡◌, List, IfOk, OnOk};
ghost use Rattle.std.specs.Option.{option_map};
ghost use Rattle.def_term.specs.Alive as alive;
ghost use Rattle.def_script.specs.Exports.{Exports, visible};
ghost use Rattle.def_run.specs.Listing.{Item as DefinedItem};
ghost use Rattle.tn_term.specs.Views.{alive_of, tree_of};
ghost use Rattle.tn_script.specs.Views.{functions_of};
ghost use Rattle.tn_session.specs.EventTexts.{event_in};
ghost use Rattle.tn_trace.specs.Slots.{IsTracked};
ghost use Rattle.tn_trace.specs.Tracks.{Track};
ghost use Rattle.complete_runs.specs.Alike.{AreKept, AreTrackedAlike};

use std::alloc::{AllocError, Allocator};
use tn_flags::Command;
use tn_script::Function;
use tn_session::EventText;
use tn_term::{Alive, Term};
use tn_trace::{Item, MessageSink, SharedSink, Slot};

/// `tn_trace::Slot::tell` has one answer. It includes the slot afterwards, and what is handed out.
pub fn tell<A: Allocator + Copy, K: MessageSink<A> + Drop>(
    one: &mut Slot<A, K>,
    other: &mut Slot<A, K>,
    alloc: A,
    text: &mut EventText<'_, A>,
    given: &mut Vec<Item<A>, A>,
    same_given: &mut Vec<Item<A>, A>,
) -> (Result<(), AllocError>, Result<(), AllocError>)
    ghost at: { Exports × alive.Alive × Track × List DefinedItem }
    requires first { IsTracked K.keeps at.0 at.1 at.2 one.old }
    requires second { IsTracked K.keeps at.0 at.1 at.2 other.old }
    requires given { K.gives given.old at.3 }
    requires same_given { K.gives same_given.old at.3 }
    ensures tracked { OnOk result.0 (OnOk result.1 (AreTrackedAlike K.keeps at.0 one.new other.new)) }
    ensures given { OnOk result.0 (OnOk result.1 (AreKept K.gives given.new same_given.new)) }
    ensures event { event_in text.new ≡ event_in text.old }
{
    let first = one.tell(alloc, text, given);
    let second = other.tell(alloc, text, same_given);
    (first, second)
}

/// `tn_trace::Slot::obey` has one answer. It includes the slot afterwards.
pub fn obey<A: Allocator + Copy, K: MessageSink<A> + Drop>(
    one: &mut Slot<A, K>,
    other: &mut Slot<A, K>,
    alloc: A,
    functions: &[Function<A>],
    living: Alive,
    command: &Command<A>,
) -> (
    Result<Option<Term<A>>, AllocError>,
    Result<Option<Term<A>>, AllocError>,
)
    ghost at: { Exports × Track }
    requires over { at.0.functions ≡ visible (functions_of functions.now) }
    requires first { IsTracked K.keeps at.0 (alive_of living) at.1 one.old }
    requires second { IsTracked K.keeps at.0 (alive_of living) at.1 other.old }
    ensures reply { IfOk result.0 (λ r. IfOk result.1 (λ q. option_map tree_of r ≡ option_map tree_of q)) }
    ensures tracked { OnOk result.0 (OnOk result.1 (AreTrackedAlike K.keeps at.0 one.new other.new)) }
{
    let first = one.obey(alloc, functions, living, command);
    let second = other.obey(alloc, functions, living, command);
    (first, second)
}

/// `tn_trace::Slot::share` has one answer.
pub fn share<A: Allocator + Copy, K: SharedSink<A> + Drop>(
    alloc: A,
    one: &Slot<A, K>,
    other: &Slot<A, K>,
) -> (
    Result<Slot<A, K>, AllocError>,
    Result<Slot<A, K>, AllocError>,
)
    ghost at: { Exports × alive.Alive × Track }
    requires first { IsTracked K.keeps at.0 at.1 at.2 one.now }
    requires second { IsTracked K.keeps at.0 at.1 at.2 other.now }
    ensures { IfOk result.0 (λ s. IfOk result.1 (AreTrackedAlike K.keeps at.0 s)) }
{
    let first = one.share(alloc);
    let second = other.share(alloc);
    (first, second)
}
