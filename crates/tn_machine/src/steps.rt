// One step of the machine.
ghost use Rattle.std.specs.Prelude.{◌≡◌, ◌+◌, ◌<◌, ◌^◌, ◌∷◌, [], IfOk, length};
ghost use Rattle.std.specs.Option.{option_map};
ghost use Rattle.def_spec.specs.Functions as table;
ghost use Rattle.def_spec.specs.Functions.{tail};
ghost use Rattle.def_machine.specs.Validity.{Each, reads};
ghost use Rattle.tn_action.specs.Steps.{AreAfter};
ghost use Rattle.tn_action.specs.Views.{effect_list};
ghost use Rattle.tn_code.specs.Views.{instruction_of, shape_kind_seen};
ghost use Rattle.tn_guard.specs.Views.{value_seen};
ghost use Rattle.tn_machine.specs.Steps.{Acts, GoesOnIf, FrameHasRoom, Sets, SetsOrFaults, SetsOrLeaves};
ghost use Rattle.tn_machine.specs.Steps.{IsApplied, IsBuilt, IsPerformed, IsPerformedOn, IsTraced};
ghost use Rattle.tn_spec.specs.Views.{func_of};
ghost use Rattle.tn_machine.specs.Views.{IsSetIn};

use crate::registers::{SomeValues, count, element, is_of_kind, put, value_in, values_in};
use bumpalo::Bump;
use std::alloc::{AllocError, Allocator};
use tn_action::{Effect, EvalContext, perform, trace_on};
use tn_code::{Instr, Kind, OnFault};
use tn_guard::{AtomConst, Value, apply};
use tn_spec::{Action, Dialect, Func};

/// Where a step leads.
#[derive(Clone, Copy)]
pub enum Next {
    /// To the instruction at this place.
    Place(usize),
    /// To the end, with a match.
    Matched,
    /// To the end, without a match.
    NoMatch,
}

/// What one instruction does: it sets a register at most, puts one effect after the others at most, and
/// leads on or ends.
pub fn step<'a, A: Allocator + Copy>(
    instr: &'a Instr<A>,
    place: usize,
    registers: &mut [Option<Value<'a, A>>],
    effects: &mut Vec<Effect<'a, A>, A>,
    scene: &EvalContext<'a, '_, A>,
) -> Result<Next, AllocError>
    requires set { Each (λ r. IsSetIn registers.old r) (reads (instruction_of instr.now)) }
    requires room { FrameHasRoom (length registers.old) (instruction_of instr.now) }
    requires next { place + 1 < 2 ^ 64 }
    ensures { IfOk result (λ n. Acts scene.now instr.now place registers.old effects.old n registers.new effects.new) }
{
    match instr {
        Instr::LoadConstant { to, term } => Ok(set(registers, *to, Value::Lent(term), place)),
        Instr::LoadList { to } => Ok(set(registers, *to, scene.context.list.list(), place)),
        Instr::LoadOwnPid { to } => Ok(set(
            registers,
            *to,
            Value::Pid(scene.context.self_pid),
            place,
        )),
        Instr::LoadCaller { to } => {
            let caller = scene.caller()?;
            Ok(set(registers, *to, caller, place))
        }
        Instr::TakeElement {
            to,
            from,
            index,
            place: away,
        } => {
            let taken = element(value_in(registers, *from), *index);
            Ok(set_or_leave(registers, *to, taken, place, *away))
        }
        Instr::TakeRest {
            to,
            from,
            place: away,
        } => {
            let taken = rest(value_in(registers, *from), scene.context.self_pid);
            Ok(set_or_leave(registers, *to, taken, place, *away))
        }
        Instr::TestKind {
            from,
            kind,
            place: away,
        } => { Ok(go_on_if(is_of_kind(value_in(registers, *from), *kind), place, *away)) }
        Instr::TestLength {
            from,
            length,
            place: away,
        } => { Ok(go_on_if(count(value_in(registers, *from)) == *length, place, *away)) }
        Instr::TestEqual {
            left,
            right,
            place: away,
        } => {
            let same = value_in(registers, *left).same(value_in(registers, *right));
            Ok(go_on_if(same, place, *away))
        }
        Instr::Jump { place: away } => Ok(Next::Place(*away)),
        Instr::Build { kind, to, from } => {
            let built = build(scene.arena, registers, *kind, from.as_slice())?;
            Ok(set(registers, *to, built, place))
        }
        Instr::Apply {
            func,
            to,
            from,
            on_fault,
        } => {
            let value = apply_function(*func, registers, from.as_slice(), scene)?;
            Ok(set_applied(registers, *to, value, *on_fault, place))
        }
        Instr::Perform {
            dialect,
            action,
            to,
            from,
        } => {
            let request = ActionRequest {
                dialect: *dialect,
                action: *action,
            };
            let value = performed_on(request, registers, from.as_slice(), effects, scene)?;
            Ok(set(registers, *to, value, place))
        }
        Instr::ChangeFlags {
            to,
            process,
            off,
            on,
            on_fault,
        } => {
            let process = value_in(registers, *process);
            let off = value_in(registers, *off);
            let on = value_in(registers, *on);
            let value = flags_changed(process, off, on, effects, scene)?;
            Ok(set_applied(registers, *to, value, *on_fault, place))
        }
        Instr::EndMatch => Ok(Next::Matched),
        Instr::EndNoMatch => Ok(Next::NoMatch),
    }
}

/// On to the next place, with a register set.
pub fn set<'a, A: Allocator>(
    registers: &mut [Option<Value<'a, A>>],
    to: usize,
    value: Value<'a, A>,
    place: usize,
) -> Next
    requires room { to < length registers.old }
    requires next { place + 1 < 2 ^ 64 }
    ensures { Sets to value.entry place registers.old result registers.new }
{
    put(registers, to, value);
    Next::Place(place + 1)
}

/// On to the next place with a register set, where there is a value, and else away.
fn set_or_leave<'a, A: Allocator>(
    registers: &mut [Option<Value<'a, A>>],
    to: usize,
    value: Option<Value<'a, A>>,
    place: usize,
    away: usize,
) -> Next
    requires room { to < length registers.old }
    requires next { place + 1 < 2 ^ 64 }
    ensures { SetsOrLeaves to away value.entry place registers.old result registers.new }
{
    match value {
        Some(value) => set(registers, to, value, place),
        None => Next::Place(away),
    }
}

/// On to the next place with a register set, or where a fault leads.
fn set_applied<'a, A: Allocator>(
    registers: &mut [Option<Value<'a, A>>],
    to: usize,
    value: Option<Value<'a, A>>,
    on_fault: OnFault,
    place: usize,
) -> Next
    requires room { to < length registers.old }
    requires next { place + 1 < 2 ^ 64 }
    ensures { SetsOrFaults to on_fault value.entry place registers.old result registers.new }
{
    match (value, on_fault) {
        (Some(value), _) => set(registers, to, value, place),
        (None, OnFault::Place(away)) => Next::Place(away),
        (None, OnFault::Exit) => set(registers, to, Value::AtomConst(AtomConst::Exit), place),
    }
}

/// On to the next place where the test holds, and else away.
pub fn go_on_if(holds: bool, place: usize, away: usize) -> Next
    requires { place + 1 < 2 ^ 64 }
    ensures { GoesOnIf holds away place result }
{
    if holds {
        Next::Place(place + 1)
    } else {
        Next::Place(away)
    }
}

/// The list of the elements after the first, where there is one.
fn rest<'a, A: Allocator>(value: Value<'a, A>, self_pid: u32) -> Option<Value<'a, A>>
    ensures { option_map value_seen result ≡ table.apply tail (value_seen value.entry ∷ []) self_pid }
{
    apply(Func::Tail, &[value], self_pid)
}

/// The tuple or list of the values in some registers.
fn build<'a, A: Allocator + Copy>(
    arena: &'a Bump<A>,
    registers: &[Option<Value<'a, A>>],
    kind: Kind,
    from: &[usize],
) -> Result<Value<'a, A>, AllocError>
    requires { Each (λ r. IsSetIn registers.now r) from.now }
    ensures { IfOk result (λ v. IsBuilt registers.now (shape_kind_seen kind) from.now v) }
{
    let values = values_in(arena, registers, from)?;
    let items = arena.try_alloc_slice_copy(values.as_slice())?;
    match kind {
        Kind::Tuple => Ok(Value::Tuple(items)),
        Kind::List => Ok(Value::List(items)),
    }
}

/// The value of a function on the values in some registers. One or two need no place in the arena.
fn apply_function<'a, A: Allocator + Copy>(
    func: Func,
    registers: &[Option<Value<'a, A>>],
    from: &[usize],
    scene: &EvalContext<'a, '_, A>,
) -> Result<Option<Value<'a, A>>, AllocError>
    requires { Each (λ r. IsSetIn registers.now r) from.now }
    ensures { IfOk result (λ v. IsApplied scene.now registers.now (func_of func) from.now v) }
{
    let pid = scene.context.self_pid;
    match from {
        [one] => Ok(apply(func, &[value_in(registers, *one)], pid)),
        [one, two] => Ok(apply(
            func,
            &[value_in(registers, *one), value_in(registers, *two)],
            pid,
        )),
        _ => {
            let values = values_in(scene.arena, registers, from)?;
            Ok(apply(func, values.as_slice(), pid))
        }
    }
}

/// An action, in a dialect.
#[derive(Clone, Copy)]
struct ActionRequest {
    dialect: Dialect,
    action: Action,
}

/// The value of an action on the values in some registers, `'EXIT'` where it faults; its effect goes after
/// the others.
fn performed_on<'a, A: Allocator + Copy>(
    request: ActionRequest,
    registers: &[Option<Value<'a, A>>],
    from: &[usize],
    effects: &mut Vec<Effect<'a, A>, A>,
    scene: &EvalContext<'a, '_, A>,
) -> Result<Value<'a, A>, AllocError>
    requires { Each (λ r. IsSetIn registers.now r) from.now }
    ensures { IfOk result (λ v. IsPerformedOn scene.now request registers.now from.now v effects.old effects.new) }
{
    let values = values_in(scene.arena, registers, from)?;
    let value = perform_action(request, &values, effects, scene)?;
    Ok(value)
}

/// The value of an action on some values, `'EXIT'` where it faults; its effect goes after the others.
fn perform_action<'a, A: Allocator + Copy>(
    request: ActionRequest,
    values: &SomeValues<'a, A>,
    effects: &mut Vec<Effect<'a, A>, A>,
    scene: &EvalContext<'a, '_, A>,
) -> Result<Value<'a, A>, AllocError>
    ensures { IfOk result (λ v. IsPerformed scene.now request values.now.items v effects.old effects.new) }
{
    let of_dialect = EvalContext {
        dialect: request.dialect,
        ..*scene
    };
    let acted = perform(
        request.action,
        values.as_slice(),
        &of_dialect,
        effects.as_slice(),
    )?;
    let Some(acted) = acted else {
        return Ok(Value::AtomConst(AtomConst::Exit));
    };
    add(acted.effect, effects)?;
    Ok(acted.value)
}

/// Whether the flags of a process change by two lists of flags, with the change put after the other effects;
/// None is a fault.
fn flags_changed<'a, A: Allocator + Copy>(
    process: Value<'a, A>,
    off: Value<'a, A>,
    on: Value<'a, A>,
    effects: &mut Vec<Effect<'a, A>, A>,
    scene: &EvalContext<'a, '_, A>,
) -> Result<Option<Value<'a, A>>, AllocError>
    ensures { IfOk result (λ v. IsTraced scene.now process.entry off.entry on.entry v effects.old effects.new) }
{
    let Some(acted) = trace_on(scene.context, effects.as_slice(), process, off, on) else {
        return Ok(None);
    };
    add(acted.effect, effects)?;
    Ok(Some(acted.value))
}

/// Puts an effect after the others, where there is one.
fn add<'a, A: Allocator>(
    effect: Option<Effect<'a, A>>,
    effects: &mut Vec<Effect<'a, A>, A>,
) -> Result<(), AllocError>
    ensures { IfOk result (λ _. AreAfter (effect_list effect.entry) effects.old effects.new) }
{
    match effect {
        Some(effect) => effects.push(effect)?,
        None => {}
    }
    Ok(())
}
