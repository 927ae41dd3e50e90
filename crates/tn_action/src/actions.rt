// The actions of bodies ("Match Specifications in Erlang", "Functions Allowed Only for Tracing").
ghost use Rattle.std.specs.Prelude.{◌≡◌, ◌∷◌, [], IfOk, map};
ghost use Rattle.std.specs.Option.{option_map};
ghost use Rattle.def_term.specs.Tree.{Tree, pid_in};
ghost use Rattle.def_term.specs.Names.{word};
ghost use Rattle.def_spec.specs.Expressions as ex;
ghost use Rattle.def_spec.specs.Flags.{flag_named};
ghost use Rattle.tn_flags.specs.Views.{flags_of};
ghost use Rattle.tn_guard.specs.Views.{value_seen};
ghost use Rattle.tn_spec.specs.Views.{dialect_of};
ghost use Rattle.tn_term.specs.Views.{alive_of};
ghost use Rattle.tn_action.specs.Steps.{IsActionDone, action_on_values, change_seen, two_seen, flags_changed};
ghost use Rattle.tn_action.specs.Views.{result_seen, context_seen, effect_seen, effect_list};

use crate::context::Context;
use crate::effect::Effect;
use crate::eval_context::EvalContext;
use crate::names::flag_in;
use crate::trace::trace_by;
use std::alloc::{AllocError, Allocator};
use tn_flags::Flags;
use tn_guard::Value;
use tn_spec::{Action, Dialect};
use tn_term::Alive;

/// The value of an action, and its effect, where it has one. Both values are lent or lie in the arena.
#[derive_where(Clone, Copy)]
pub struct ActionResult<'a, A: Allocator> {
    pub value: Value<'a, A>,
    pub effect: Option<Effect<'a, A>>,
}

/// The value of an action on its arguments' values after these effects, with its own effect; None is a
/// fault. An error is refused memory.
pub fn perform<'a, A: Allocator + Copy>(
    action: Action,
    args: &[Value<'a, A>],
    scene: &EvalContext<'a, '_, A>,
    effects: &[Effect<'_, A>],
) -> Result<Option<ActionResult<'a, A>>, AllocError>
    ensures { IfOk result (λ r. option_map result_seen r ≡ action_on_values scene.now action args.now effects.now) }
{
    match action {
        Action::Message => Ok(message(args)),
        Action::ReturnTrace => Ok(Some(mark_result(scene.dialect, Effect::ReturnTrace))),
        Action::ExceptionTrace => Ok(Some(mark_result(scene.dialect, Effect::ExceptionTrace))),
        Action::Silent => Ok(silent(args)),
        Action::EnableTrace => Ok(change_result(change(true, args, scene.context))),
        Action::DisableTrace => Ok(change_result(change(false, args, scene.context))),
        Action::Trace => Ok(trace_by(scene.context, effects, args)),
        Action::Caller => Ok(Some(ActionResult {
            value: scene.caller()?,
            effect: None,
        })),
    }
}

/// `true`, with this effect.
fn effect_result<'a, A: Allocator>(effect: Option<Effect<'a, A>>) -> ActionResult<'a, A>
    ensures { result_seen result ≡ (word "true", effect_list effect.entry) }
{
    ActionResult {
        value: Value::truth(true),
        effect,
    }
}

/// `message`
fn message<'a, A: Allocator>(args: &[Value<'a, A>]) -> Option<ActionResult<'a, A>>
    ensures { IsActionDone ex.message args.now result }
{
    if args.len() == 1 {
        Some(effect_result(Some(Effect::Message(args[0]))))
    } else {
        None
    }
}

/// `return_trace` and `exception_trace`, which have their effect in the dialect of calls alone.
fn mark_result<'a, A: Allocator>(dialect: Dialect, effect: Effect<'a, A>) -> ActionResult<'a, A>
    ensures { result_seen result ≡ (word "true", ex.of_calls (dialect_of dialect) (effect_seen effect.entry)) }
{
    match dialect {
        Dialect::Call => effect_result(Some(effect)),
        Dialect::Send | Dialect::Recv => effect_result(None),
    }
}

/// `silent`
fn silent<'a, A: Allocator>(args: &[Value<'a, A>]) -> Option<ActionResult<'a, A>>
    ensures { IsActionDone ex.silent args.now result }
{
    if args.len() == 1 {
        Some(effect_result(silence(args[0])))
    } else {
        None
    }
}

/// The effect of `silent` for this value.
fn silence<'a, A: Allocator>(value: Value<'a, A>) -> Option<Effect<'a, A>>
    ensures { effect_list result ≡ ex.silence (value_seen value.entry) }
{
    if value.is_true() {
        Some(Effect::Silent(true))
    } else if value.same(Value::<A>::truth(false)) {
        Some(Effect::Silent(false))
    } else {
        None
    }
}

/// `true`, with this change; None where there is none.
fn change_result<'a, A: Allocator>(change: Option<Effect<'a, A>>) -> Option<ActionResult<'a, A>>
    ensures { option_map result_seen result ≡ option_map (λ e. (word "true", effect_seen e ∷ [])) change.entry }
{
    match change {
        Some(effect) => Some(effect_result(Some(effect))),
        None => None,
    }
}

/// What `enable_trace` and `disable_trace` change: a flag of the own process, or of a living one.
fn change<'a, A: Allocator>(
    on: bool,
    args: &[Value<'_, A>],
    context: &Context<'_, '_, A>,
) -> Option<Effect<'a, A>>
    ensures { change_seen result ≡ ex.change_by on (context_seen context.now) (map value_seen args.now) }
{
    if args.len() == 1 {
        change_own(on, args[0], context)
    } else if args.len() == 2 {
        change_other(on, args[0], args[1], context)
    } else {
        None
    }
}

/// The change of a flag of the own process.
fn change_own<'a, A: Allocator>(
    on: bool,
    flag: Value<'_, A>,
    context: &Context<'_, '_, A>,
) -> Option<Effect<'a, A>>
    ensures { change_seen result ≡ ex.change_by on (context_seen context.now) (value_seen flag.entry ∷ []) }
{
    change_flag(on, living_pid(Some(context.self_pid), context.alive), flag)
}

/// The change of a flag of another process.
fn change_other<'a, A: Allocator>(
    on: bool,
    process: Value<'_, A>,
    flag: Value<'_, A>,
    context: &Context<'_, '_, A>,
) -> Option<Effect<'a, A>>
    ensures { change_seen result ≡ ex.change_by on (context_seen context.now) (two_seen process.entry flag.entry) }
{
    change_flag(on, living_pid(process.pid(), context.alive), flag)
}

/// The pid, where it is a living process's.
pub(crate) fn living_pid(pid: Option<u32>, alive: &Alive) -> Option<u32>
    ensures { (t : Tree) → pid ≡ pid_in t → result ≡ ex.living_pid (alive_of alive.now) t }
{
    match pid {
        Some(pid) => { if alive.has(pid) { Some(pid) } else { None } }
        None => None,
    }
}

/// The change of one flag of one process; None where the process or the flag isn't there.
fn change_flag<'a, A: Allocator>(
    on: bool,
    pid: Option<u32>,
    flag: Value<'_, A>,
) -> Option<Effect<'a, A>>
    ensures { change_seen result ≡ ex.change on pid (flag_named (value_seen flag.entry)) }
{
    match (pid, flag_in(flag)) {
        (Some(pid), Some(flag)) => Some(change_of(on, pid, flag)),
        _ => None,
    }
}

/// The change of one flag of one process.
fn change_of<'a, A: Allocator>(on: bool, pid: u32, flag: Flags) -> Effect<'a, A>
    ensures { effect_seen result ≡ flags_changed on pid (flags_of flag) }
{
    if on {
        Effect::Change {
            pid,
            off: Flags::none(),
            on: flag,
        }
    } else {
        Effect::Change {
            pid,
            off: flag,
            on: Flags::none(),
        }
    }
}
