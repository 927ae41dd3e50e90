// Whether the evaluation of an event leaves open what a session of a running node reports.
ghost use Rattle.std.specs.Prelude.{◌≡◌, Bool, ◌||◌, IfOk};
ghost use Rattle.def_node.specs.Event.{called, received, sent};
ghost use Rattle.def_session.specs.Settings.{by};
ghost use Rattle.def_running_node.specs.NodeRuns.{opens};
ghost use Rattle.tn_flags.specs.Views.{call_seen, event_of};
ghost use Rattle.tn_spec.specs.Wholes.{spec_seen};
ghost use Rattle.tn_session.specs.Looks.{look_seen, look_setting};
ghost use Rattle.tn_running_node.specs.ClauseDifferences.{opens_with, opens_where_fired};
ghost use Rattle.tn_term.specs.Views.{tree_of};
ghost use Rattle.tn_running_node.specs.Evaluations.{OpensBy, OpensOn};

use crate::actor::Actor;
use crate::clause::{ClauseDifferences, clause_differences};
use crate::firing_bindings::firing_bindings;
use bumpalo::Bump;
use std::alloc::{AllocError, Allocator};
use tn_action::{Context, Effect, EvalContext, Position, body_effects};
use tn_difference::{Difference, body_differs};
use tn_flags::{Call, Event};
use tn_guard::{AtomConst, ListView, Value, lent_values};
use tn_head::Bindings;
use tn_index::Setting;
use tn_session::{Look, NewestSetting};
use tn_spec::{Clause, Dialect, Spec};
use tn_term::Term;

/// Whether a command is about a call: every call, or those that name the module.
pub fn concerns<A: Allocator + Copy>(newest: &NewestSetting<'_, A>, call: &Call<A>) -> bool
    ensures { result ≡ (newest.now.local || call.now.named) }
{
    newest.local || call.named
}

/// Whether a clause that fires leaves it open.
fn clause_opens<A: Allocator>(
    of_clause: ClauseDifferences,
    dialect: Dialect,
    context: &Context<'_, '_, A>,
    effects: &[Effect<'_, A>],
) -> bool
    ensures { result ≡ opens_with of_clause dialect context.now effects.now }
{
    of_clause.order
        || of_clause.logic
        || of_clause.list
        || body_differs(Difference::NodeEnds, dialect, context, effects)
        || body_differs(Difference::ReadsFreed, dialect, context, effects)
        || body_differs(Difference::IgnoresSilent, dialect, context, effects)
}

/// Whether a clause that fires with these bindings does.
fn fired_opens<'a, A: Allocator + Copy>(
    alloc: A,
    arena: &'a Bump<A>,
    dialect: Dialect,
    clause: &'a Clause<A>,
    bindings: &'a Bindings<'a, A, &'a Bump<A>>,
    context: &Context<'a, '_, A>,
) -> Result<bool, AllocError>
    ensures { IfOk result (λ b. b ≡ opens_where_fired dialect clause.now bindings.now context.now) }
{
    let scene = EvalContext {
        alloc,
        arena,
        dialect,
        part: Position::Body,
        bindings,
        context,
    };
    let effects = body_effects(&clause.body, &scene)?;
    let these = clause_differences(alloc, arena, dialect, clause, bindings, context)?;
    Ok(clause_opens(these, dialect, context, &effects))
}

/// Whether the first clause that fires does, where one fires. What is evaluated lies in the arena.
fn clauses_open<'a, A: Allocator + Copy>(
    alloc: A,
    arena: &'a Bump<A>,
    spec: &'a Spec<A>,
    context: &Context<'a, '_, A>,
) -> Result<bool, AllocError>
    ensures { IfOk result (OpensBy (by (spec_seen spec.now)) context.now) }
{
    let dialect = spec.dialect;
    let clauses = &spec.clauses;
    for i in 0..clauses.len() {
        let clause = &clauses[i];
        match firing_bindings(alloc, arena, dialect, clause, context)? {
            None => {}
            Some(bindings) => {
                return Ok(fired_opens(alloc, arena, dialect, clause, bindings, context)?);
            }
        }
    }
    Ok(false)
}

/// The same in an arena that is given up afterwards.
fn spec_opens<A: Allocator + Copy>(
    alloc: A,
    spec: &Spec<A>,
    context: &Context<'_, '_, A>,
) -> Result<bool, AllocError>
    ensures { IfOk result (OpensBy (by (spec_seen spec.now)) context.now) }
{
    let arena = Bump::new(alloc);
    Ok(clauses_open(alloc, &arena, spec, context)?)
}

/// Whether a setting that is evaluated in a context does.
fn setting_opens<A: Allocator + Copy>(
    alloc: A,
    setting: Setting<&Spec<A>>,
    context: &Context<'_, '_, A>,
) -> Result<bool, AllocError>
    ensures { IfOk result (OpensBy (look_setting setting.entry) context.now) }
{
    match setting {
        Setting::Disabled => Ok(false),
        Setting::Always => Ok(false),
        Setting::Specification(spec) => spec_opens(alloc, spec, context),
    }
}

/// Whether a setting that is evaluated on these values of a process does.
fn values_open<'a, A: Allocator + Copy>(
    alloc: A,
    setting: Setting<&'a Spec<A>>,
    look: &Look<'a, A>,
    actor: Actor<'a, A>,
    list: &'a [Value<'a, A>],
) -> Result<bool, AllocError>
    ensures { IfOk result (OpensOn (look_setting setting.entry) look.now actor.entry list.now) }
{
    let context = Context {
        list: ListView::Values(list),
        self_pid: actor.pid,
        caller: actor.caller,
        alive: look.alive(),
        flags: look.flags(),
    };
    setting_opens(alloc, setting, &context)
}

/// Whether a send does.
fn send_opens<'a, A: Allocator + Copy>(
    alloc: A,
    look: &Look<'a, A>,
    pid: u32,
    message: &'a Term<A>,
    to: u32,
) -> Result<bool, AllocError>
    ensures { (a : Bool) → IfOk result (λ b. b ≡ opens (look_seen look.now) (sent pid (tree_of message.now) to a)) }
{
    if !look.flags_at(pid).send {
        return Ok(false);
    }
    let list = [Value::Pid(to), Value::Lent(message)];
    let actor = Actor { pid, caller: None };
    Ok(values_open(alloc, look.send_setting(), look, actor, &list)?)
}

/// Whether a receive does.
fn receive_opens<'a, A: Allocator + Copy>(
    alloc: A,
    look: &Look<'a, A>,
    pid: u32,
    sender: u32,
    message: &'a Term<A>,
) -> Result<bool, AllocError>
    ensures { IfOk result (λ b. b ≡ opens (look_seen look.now) (received pid sender (tree_of message.now))) }
{
    if !look.flags_at(pid).receive {
        return Ok(false);
    }
    let list = [
        Value::AtomConst(AtomConst::Node),
        Value::Pid(sender),
        Value::Lent(message),
    ];
    let actor = Actor { pid, caller: None };
    Ok(values_open(alloc, look.receive_setting(), look, actor, &list)?)
}

/// Whether a call does.
fn call_opens<'a, A: Allocator + Copy>(
    alloc: A,
    look: &Look<'a, A>,
    pid: u32,
    call: &'a Call<A>,
) -> Result<bool, AllocError>
    ensures { IfOk result (λ b. b ≡ opens (look_seen look.now) (called pid (call_seen call.now))) }
{
    if !look.flags_at(pid).call {
        return Ok(false);
    }
    let Some(newest) = look.newest(call) else {
        return Ok(false);
    };
    if !concerns(&newest, call) {
        return Ok(false);
    }
    let args = lent_values(alloc, &call.args)?;
    let caller = call.caller.as_ref();
    let actor = Actor { pid, caller };
    values_open(alloc, newest.setting, look, actor, args.as_slice())
}

/// Whether what a session of a running node reports isn't determined after an event, since a node evaluates it
/// otherwise. An error is refused memory.
pub fn opens<'a, A: Allocator + Copy>(
    alloc: A,
    look: &Look<'a, A>,
    event: &'a Event<A>,
) -> Result<bool, AllocError>
    ensures { IfOk result (λ b. b ≡ opens (look_seen look.now) (event_of event.now)) }
{
    match event {
        Event::Sent {
            pid,
            message,
            to,
            ..
        } => send_opens(alloc, look, *pid, message.term(), *to),
        Event::Received {
            pid,
            sender,
            message,
        } => receive_opens(alloc, look, *pid, *sender, message.term()),
        Event::Called { pid, call } => call_opens(alloc, look, *pid, call),
        _ => Ok(false),
    }
}
