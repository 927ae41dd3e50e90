// The action `trace` ("Match Specifications in Erlang", "Functions Allowed Only for Tracing").
ghost use Rattle.std.specs.Prelude.{◌≡◌, Some, map};
ghost use Rattle.std.specs.Option.{option_map};
ghost use Rattle.def_spec.specs.Expressions.{trace_by};
ghost use Rattle.tn_flags.specs.Views.{flags_of};
ghost use Rattle.tn_guard.specs.Views.{value_seen};
ghost use Rattle.tn_action.specs.Steps.{context_at, two_seen, trace_of, flags_traced};
ghost use Rattle.tn_action.specs.Views.{result_seen};

use crate::actions::{ActionResult, living_pid};
use crate::context::Context;
use crate::effect::Effect;
use crate::names::flags_in;
use std::alloc::Allocator;
use tn_flags::Flags;
use tn_guard::Value;

/// `trace` after these effects: on the own process with two lists of flags, or on the process that comes
/// before them.
pub(crate) fn trace_by<'a, 'b, A: Allocator>(
    context: &Context<'_, '_, A>,
    past: &[Effect<'_, A>],
    args: &[Value<'b, A>],
) -> Option<ActionResult<'a, A>>
    ensures { option_map result_seen result ≡ trace_by (context_at context.now past.now) (map value_seen args.now) }
{
    if args.len() == 2 {
        trace_own(context, past, args[0], args[1])
    } else if args.len() == 3 {
        trace_on(context, past, args[0], args[1], args[2])
    } else {
        None
    }
}

/// `trace` on the own process.
fn trace_own<'a, 'b, A: Allocator>(
    context: &Context<'_, '_, A>,
    past: &[Effect<'_, A>],
    off: Value<'b, A>,
    on: Value<'b, A>,
) -> Option<ActionResult<'a, A>>
    ensures { option_map result_seen result ≡ trace_by (context_at context.now past.now) (two_seen off.entry on.entry) }
{
    let own: Value<'b, A> = Value::Pid(context.self_pid);
    trace_on(context, past, own, off, on)
}

/// `trace` on a process after these effects: clears the flags of one list and sets those of the other. Its
/// value is whether that changes the flags of the process. None, a fault, where no such process lives, or where
/// a value is no list of flags.
pub fn trace_on<'a, 'b, A: Allocator>(
    context: &Context<'_, '_, A>,
    past: &[Effect<'_, A>],
    who: Value<'b, A>,
    off: Value<'b, A>,
    on: Value<'b, A>,
) -> Option<ActionResult<'a, A>>
    ensures { option_map result_seen result ≡ trace_of (context_at context.now past.now) who.entry off.entry on.entry }
{
    let Some(pid) = living_pid(who.pid(), context.alive) else {
        return None;
    };
    let Some(off) = flags_in(off) else {
        return None;
    };
    let Some(on) = flags_in(on) else {
        return None;
    };
    Some(flag_change(context, past, pid, off, on))
}

/// Flags of a process cleared and set after these effects; the value is whether its flags change.
fn flag_change<'a, A: Allocator>(
    context: &Context<'_, '_, A>,
    past: &[Effect<'_, A>],
    pid: u32,
    off: Flags,
    on: Flags,
) -> ActionResult<'a, A>
    ensures { result_seen result ≡ flags_traced (context_at context.now past.now) pid (flags_of off) (flags_of on) }
{
    let flags = context.flags_after(past).of(pid);
    let change = !flags.same(flags.without(off).join(on));
    ActionResult {
        value: Value::truth(change),
        effect: Some(Effect::Change { pid, off, on }),
    }
}
