// The actions of bodies.
ghost use Rattle.std.specs.Prelude.{◌≡◌, IfOk, map};
ghost use Rattle.std.specs.Option.{option_map};
ghost use Rattle.tn_guard.specs.Views.{value_seen};
ghost use Rattle.tn_flags.specs.Views.{table_of};
ghost use Rattle.tn_action.specs.Views.{result_seen, effect_seen};

use std::alloc::{AllocError, Allocator};
use tn_action::{ActionResult, Context, Effect, EvalContext};
use tn_flags::FlagTable;
use tn_guard::Value;
use tn_spec::Action;

/// `tn_action::perform` has one answer.
pub fn perform<'a, A: Allocator + Copy>(
    action: Action,
    one: &[Value<'a, A>],
    other: &[Value<'a, A>],
    scene: &EvalContext<'a, '_, A>,
    before: &[Effect<'_, A>],
    again: &[Effect<'_, A>],
) -> (
    Result<Option<ActionResult<'a, A>>, AllocError>,
    Result<Option<ActionResult<'a, A>>, AllocError>,
)
    requires values { map value_seen one.now ≡ map value_seen other.now }
    requires effects { map effect_seen before.now ≡ map effect_seen again.now }
    ensures { IfOk result.0 (λ r. IfOk result.1 (λ q. option_map result_seen r ≡ option_map result_seen q)) }
{
    (
        tn_action::perform(action, one, scene, before),
        tn_action::perform(action, other, scene, again),
    )
}

/// `tn_action::trace_on` has one answer.
pub fn trace_on<'a, A: Allocator>(
    context: &Context<'_, '_, A>,
    before: &[Effect<'_, A>],
    again: &[Effect<'_, A>],
    process: Value<'_, A>,
    off: Value<'_, A>,
    on: Value<'_, A>,
) -> (Option<ActionResult<'a, A>>, Option<ActionResult<'a, A>>)
    requires { map effect_seen before.now ≡ map effect_seen again.now }
    ensures { option_map result_seen result.0 ≡ option_map result_seen result.1 }
{
    (
        tn_action::trace_on(context, before, process, off, on),
        tn_action::trace_on(context, again, process, off, on),
    )
}

/// `tn_action::Effect::apply_to` leaves one table.
pub fn apply_to<A: Allocator, B: Allocator>(
    effect: &Effect<'_, A>,
    again: &Effect<'_, B>,
    one: &mut FlagTable,
    other: &mut FlagTable,
    self_pid: u32,
)
    requires effects { effect_seen effect.now ≡ effect_seen again.now }
    requires tables { table_of one.old ≡ table_of other.old }
    ensures { table_of one.new ≡ table_of other.new }
{
    effect.apply_to(one, self_pid);
    again.apply_to(other, self_pid);
}
