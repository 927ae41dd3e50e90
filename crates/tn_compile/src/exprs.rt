// The code of expressions.
ghost use Rattle.std.specs.Prelude.{◌≡◌, ◌∷◌, ◌+◌, ◌<◌, ◌≤◌, ◌^◌, OnOk, IfOk, length};
ghost use Rattle.def_spec.specs.Functions.{truth};
ghost use Rattle.def_spec.specs.Expressions.{all_bound};
ghost use Rattle.def_machine.specs.Compilation.{register_of, registers_of, is_on_self, action_code};
ghost use Rattle.def_machine.specs.Instructions.{load_constant};
ghost use Rattle.tn_spec.specs.Sizes.{expr_size, exprs_size};
ghost use Rattle.tn_spec.specs.Views.{dialect_of, action_of, expr_seen, exprs_seen};
ghost use Rattle.tn_term.specs.Views.{tree_of};
ghost use Rattle.tn_code.specs.Views.{instruction_of, on_fault_seen};
ghost use Rattle.tn_compile.specs.Views.{code_left, variables_seen, fault_emitted};
ghost use Rattle.tn_compile.specs.Emissions.{EmitsExpr, EmitsExprs, EmitsShortCircuit, EmitsTest, EmitsTests};
ghost use Rattle.tn_compile.specs.Emissions.{EmitsBuild, EmitsApply, EmitsPerform, EmitsOnSelf, EmitsAction, is_trace};

use crate::emit_context::{
    EmitContext, Position, Stop, VariableRegister, all_registers, emit, register_of_variable,
};
use std::alloc::{AllocError, Allocator};
use tn_code::{Instr, Kind, OnFault};
use tn_spec::{Action, Dialect, Expr, Func};
use tn_term::Term;

/// The register of an expression's value: a variable's own, or the free one.
fn register_of<P: Allocator>(variables: &[VariableRegister], expr: &Expr<P>, free: usize) -> usize
    ensures { result ≡ register_of (variables_seen variables.now) (expr_seen expr.now) free }
{
    match expr {
        Expr::Variable(number) => match register_of_variable(variables, *number) {
            Some(register) => register,
            None => free,
        },
        _ => free,
    }
}

/// The registers of the values of several expressions.
fn registers_of<P: Allocator, A: Allocator + Copy>(
    alloc: A,
    variables: &[VariableRegister],
    exprs: &[Expr<P>],
    free: usize,
) -> Result<Vec<usize, A>, AllocError>
    requires room { free + exprs_size (exprs_seen exprs.now) < 2 ^ 64 }
    ensures { IfOk result (λ v. v.items ≡ registers_of (variables_seen variables.now) (exprs_seen exprs.now) free) }
{
    let mut registers = Vec::with_capacity(alloc, exprs.len())?;
    for i in 0..exprs.len() {
        registers.push(register_of(variables, &exprs[i], free + i))?;
    }
    Ok(registers)
}

/// The atom `true` or `false`.
fn truth<A: Allocator + Copy>(alloc: A, holds: bool) -> Result<Term<A>, AllocError>
    ensures { IfOk result (λ t. tree_of t ≡ truth holds) }
{
    if holds {
        Term::word(alloc, "true")
    } else {
        Term::word(alloc, "false")
    }
}

/// Puts an instruction in front of the code that loads `true` or `false`.
fn emit_truth<A: Allocator + Copy>(
    alloc: A,
    code: &mut Vec<Instr<A>, A>,
    to: usize,
    holds: bool,
) -> Result<(), AllocError>
    ensures emitted { OnOk result (code_left code.new ≡ load_constant to (truth holds) ∷ code_left code.old) }
    ensures longer { OnOk result (length code.new.items ≡ length code.old.items + 1) }
{
    let term = truth(alloc, holds)?;
    emit(code, Instr::LoadConstant { to, term })?;
    Ok(())
}

/// What follows the fault of a function, in front of the code.
fn on_fault<A: Allocator>(code: &Vec<Instr<A>, A>, scene: &EmitContext<'_>) -> OnFault
    requires { scene.now.left ≤ length code.now.items }
    ensures { on_fault_seen result ≡ fault_emitted scene.now (length code.now.items) }
{
    match scene.part {
        Position::Condition => OnFault::Place(code.len() - scene.left),
        Position::Body => OnFault::Exit,
    }
}

/// Puts the instruction that makes a tuple or list of the values in front of the code.
fn emit_build<P: Allocator, A: Allocator + Copy>(
    alloc: A,
    code: &mut Vec<Instr<A>, A>,
    kind: Kind,
    exprs: &Vec<Expr<P>, P>,
    scene: &EmitContext<'_>,
    to: usize,
) -> Result<(), AllocError>
    requires room { to + exprs_size (exprs_seen exprs.now.items) < 2 ^ 64 }
    ensures emitted { OnOk result (EmitsBuild scene.now kind (exprs_seen exprs.now.items) to code.old code.new) }
    ensures longer { OnOk result (length code.old.items ≤ length code.new.items) }
{
    let from = registers_of(alloc, scene.variables, exprs.as_slice(), to)?;
    emit(code, Instr::Build { kind, to, from })
}

/// Puts the call of a function on the values in front of the code.
fn emit_apply<P: Allocator, A: Allocator + Copy>(
    alloc: A,
    code: &mut Vec<Instr<A>, A>,
    func: Func,
    exprs: &Vec<Expr<P>, P>,
    scene: &EmitContext<'_>,
    to: usize,
) -> Result<(), AllocError>
    requires room { to + exprs_size (exprs_seen exprs.now.items) < 2 ^ 64 }
    requires behind { scene.now.left ≤ length code.old.items }
    ensures emitted { OnOk result (EmitsApply scene.now func (exprs_seen exprs.now.items) to code.old code.new) }
    ensures longer { OnOk result (length code.old.items ≤ length code.new.items) }
{
    let from = registers_of(alloc, scene.variables, exprs.as_slice(), to)?;
    let on_fault = on_fault(code, scene);
    emit(
        code,
        Instr::Apply {
            func,
            to,
            from,
            on_fault,
        },
    )
}

/// Whether the action is `trace`.
fn is_trace(action: Action) -> bool
    ensures { result ≡ is_trace (action_of action) }
{
    match action {
        Action::Trace => true,
        Action::Message
        | Action::ReturnTrace
        | Action::ExceptionTrace
        | Action::Silent
        | Action::EnableTrace
        | Action::DisableTrace
        | Action::Caller => false,
    }
}

/// Whether the call is `trace` without a pid.
fn is_on_self<P: Allocator>(action: Action, exprs: &[Expr<P>]) -> bool
    ensures { result ≡ is_on_self (action_of action) (exprs_seen exprs.now) }
{
    is_trace(action) && exprs.len() == 2
}

/// The instruction of an action on some registers: `trace` on three has one of its own.
fn action_instr<A: Allocator>(
    dialect: Dialect,
    action: Action,
    to: usize,
    from: Vec<usize, A>,
) -> Instr<A>
    ensures { instruction_of result ≡ action_code (dialect_of dialect) (action_of action) to from.items }
{
    if is_trace(action) && from.len() == 3 {
        return Instr::ChangeFlags {
            to,
            process: from[0],
            off: from[1],
            on: from[2],
            on_fault: OnFault::Exit,
        };
    }
    Instr::Perform {
        dialect,
        action,
        to,
        from,
    }
}

/// Puts an action on the values in front of the code.
fn emit_perform<P: Allocator, A: Allocator + Copy>(
    alloc: A,
    code: &mut Vec<Instr<A>, A>,
    action: Action,
    exprs: &Vec<Expr<P>, P>,
    scene: &EmitContext<'_>,
    to: usize,
) -> Result<(), AllocError>
    requires room { to + exprs_size (exprs_seen exprs.now.items) < 2 ^ 64 }
    ensures emitted { OnOk result (EmitsPerform scene.now action (exprs_seen exprs.now.items) to code.old code.new) }
    ensures longer { OnOk result (length code.old.items ≤ length code.new.items) }
{
    let from = registers_of(alloc, scene.variables, exprs.as_slice(), to)?;
    emit(code, action_instr(scene.dialect, action, to, from))
}

/// Puts an action on the own pid, which has the register `to`, and on the values in front of the code.
fn emit_on_self<P: Allocator, A: Allocator + Copy>(
    alloc: A,
    code: &mut Vec<Instr<A>, A>,
    action: Action,
    exprs: &Vec<Expr<P>, P>,
    scene: &EmitContext<'_>,
    to: usize,
) -> Result<(), AllocError>
    requires room { to + 1 + exprs_size (exprs_seen exprs.now.items) < 2 ^ 64 }
    ensures emitted { OnOk result (EmitsOnSelf scene.now action (exprs_seen exprs.now.items) to code.old code.new) }
    ensures longer { OnOk result (length code.old.items ≤ length code.new.items) }
{
    let mut from = registers_of(alloc, scene.variables, exprs.as_slice(), to + 1)?;
    from.insert(0, to)?;
    emit(code, action_instr(scene.dialect, action, to, from))
}

/// Puts the instruction that makes the list of all bound values in front of the code.
fn emit_all_bound<A: Allocator + Copy>(
    alloc: A,
    code: &mut Vec<Instr<A>, A>,
    scene: &EmitContext<'_>,
    to: usize,
) -> Result<(), AllocError>
    ensures emitted { OnOk result (EmitsExpr scene.now all_bound to code.old code.new) }
    ensures longer { OnOk result (length code.old.items ≤ length code.new.items) }
{
    let from = all_registers(alloc, scene.variables)?;
    emit(
        code,
        Instr::Build {
            kind: Kind::List,
            to,
            from,
        },
    )
}

/// Puts the instruction that loads a term as it stands in front of the code.
fn emit_constant<P: Allocator, A: Allocator + Copy>(
    alloc: A,
    code: &mut Vec<Instr<A>, A>,
    term: &Term<P>,
    to: usize,
) -> Result<(), AllocError>
    ensures emitted { OnOk result (code_left code.new ≡ load_constant to (tree_of term.now) ∷ code_left code.old) }
    ensures longer { OnOk result (length code.old.items ≤ length code.new.items) }
{
    let term = term.copy_into(alloc)?;
    emit(code, Instr::LoadConstant { to, term })
}

/// Puts the code of an expression's value in front of the code.
#[cycle(emit)]
pub fn emit_expr<P: Allocator, A: Allocator + Copy>(
    alloc: A,
    code: &mut Vec<Instr<A>, A>,
    expr: &Expr<P>,
    scene: &EmitContext<'_>,
    free: usize,
) -> Result<(), AllocError>
    requires room { free + 1 + expr_size (expr_seen expr.now) < 2 ^ 64 }
    requires behind { scene.now.left ≤ length code.old.items }
    ensures emitted { OnOk result (EmitsExpr scene.now (expr_seen expr.now) free code.old code.new) }
    ensures longer { OnOk result (length code.old.items ≤ length code.new.items) }
{
    match expr {
        Expr::Variable(_) => Ok(()),
        Expr::WholeList => emit(code, Instr::LoadList { to: free }),
        Expr::AllBound => emit_all_bound(alloc, code, scene, free),
        Expr::Constant(term) => emit_constant(alloc, code, term, free),
        Expr::Tuple(exprs) => {
            emit_build(alloc, code, Kind::Tuple, exprs, scene, free)?;
            emit_exprs(alloc, code, exprs, scene, free)
        }
        Expr::List(exprs) => {
            emit_build(alloc, code, Kind::List, exprs, scene, free)?;
            emit_exprs(alloc, code, exprs, scene, free)
        }
        Expr::Call(func, exprs) => {
            emit_apply(alloc, code, *func, exprs, scene, free)?;
            emit_exprs(alloc, code, exprs, scene, free)
        }
        Expr::AndAlso(exprs) => emit_short_circuit(alloc, code, exprs, scene, free, false),
        Expr::OrElse(exprs) => emit_short_circuit(alloc, code, exprs, scene, free, true),
        Expr::Perform(action, exprs) => emit_action(alloc, code, *action, exprs, scene, free),
    }
}

/// Puts the code of an action's call in front of the code; it loads the own pid where `trace` is given none.
#[cycle(emit)]
fn emit_action<P: Allocator, A: Allocator + Copy>(
    alloc: A,
    code: &mut Vec<Instr<A>, A>,
    action: Action,
    exprs: &Vec<Expr<P>, P>,
    scene: &EmitContext<'_>,
    free: usize,
) -> Result<(), AllocError>
    requires room { free + 2 + exprs_size (exprs_seen exprs.now.items) < 2 ^ 64 }
    requires behind { scene.now.left ≤ length code.old.items }
    ensures emitted { OnOk result (EmitsAction scene.now action (exprs_seen exprs.now.items) free code.old code.new) }
    ensures longer { OnOk result (length code.old.items ≤ length code.new.items) }
{
    if is_on_self(action, exprs.as_slice()) {
        emit_on_self(alloc, code, action, exprs, scene, free)?;
        emit_exprs(alloc, code, exprs, scene, free + 1)?;
        emit(code, Instr::LoadOwnPid { to: free })
    } else {
        emit_perform(alloc, code, action, exprs, scene, free)?;
        emit_exprs(alloc, code, exprs, scene, free)
    }
}

/// Puts the code of `orelse`, which `true` stops, or of `andalso`, which any other value stops, in front of the code.
#[cycle(emit)]
fn emit_short_circuit<P: Allocator, A: Allocator + Copy>(
    alloc: A,
    code: &mut Vec<Instr<A>, A>,
    exprs: &Vec<Expr<P>, P>,
    scene: &EmitContext<'_>,
    free: usize,
    on_true: bool,
) -> Result<(), AllocError>
    requires room { free + 2 + exprs_size (exprs_seen exprs.now.items) < 2 ^ 64 }
    requires behind { scene.now.left ≤ length code.old.items }
    ensures emitted { OnOk result
        (EmitsShortCircuit scene.now on_true (exprs_seen exprs.now.items) free code.old code.new) }
    ensures longer { OnOk result (length code.old.items ≤ length code.new.items) }
{
    let left = code.len();
    emit_truth(alloc, code, free, !on_true)?;
    emit_tests(alloc, code, exprs, scene, free + 1, Stop { on_true, left })?;
    emit_truth(alloc, code, free, on_true)
}

/// Puts the code of the values of several expressions in front of the code.
#[cycle(emit)]
pub fn emit_exprs<P: Allocator, A: Allocator + Copy>(
    alloc: A,
    code: &mut Vec<Instr<A>, A>,
    exprs: &Vec<Expr<P>, P>,
    scene: &EmitContext<'_>,
    free: usize,
) -> Result<(), AllocError>
    requires room { free + 1 + exprs_size (exprs_seen exprs.now.items) < 2 ^ 64 }
    requires behind { scene.now.left ≤ length code.old.items }
    ensures emitted { OnOk result (EmitsExprs scene.now (exprs_seen exprs.now.items) free code.old code.new) }
    ensures longer { OnOk result (length code.old.items ≤ length code.new.items) }
{
    let mut i = exprs.len();
    while i > 0 {
        i -= 1;
        let expr = &exprs[i];
        emit_expr(alloc, code, expr, scene, free + i)?;
    }
    Ok(())
}

/// Puts the test of a value against `true` in front of the code; one that stops goes on where the stop says.
fn emit_test<A: Allocator>(
    code: &mut Vec<Instr<A>, A>,
    left: usize,
    right: usize,
    stop: Stop,
) -> Result<(), AllocError>
    requires { stop.left ≤ length code.old.items }
    ensures emitted { OnOk result (EmitsTest left right stop code.old code.new) }
    ensures longer { OnOk result (length code.old.items ≤ length code.new.items) }
{
    let place = code.len() - stop.left;
    if stop.on_true {
        emit(code, Instr::Jump { place })?;
        emit(
            code,
            Instr::TestEqual {
                left,
                right,
                place: 1,
            },
        )
    } else {
        emit(code, Instr::TestEqual { left, right, place })
    }
}

/// Puts in front of the code what goes on with it where no value stops it.
#[cycle(emit)]
pub fn emit_tests<P: Allocator, A: Allocator + Copy>(
    alloc: A,
    code: &mut Vec<Instr<A>, A>,
    exprs: &Vec<Expr<P>, P>,
    scene: &EmitContext<'_>,
    free: usize,
    stop: Stop,
) -> Result<(), AllocError>
    requires room { free + 1 + exprs_size (exprs_seen exprs.now.items) < 2 ^ 64 }
    requires behind { scene.now.left ≤ length code.old.items }
    requires stop { stop.left ≤ length code.old.items }
    ensures emitted { OnOk result (EmitsTests scene.now (exprs_seen exprs.now.items) free stop code.old code.new) }
    ensures longer { OnOk result (length code.old.items ≤ length code.new.items) }
{
    let mut i = exprs.len();
    while i > 0 {
        i -= 1;
        let expr = &exprs[i];
        let left = register_of(scene.variables, expr, free);
        emit_test(code, left, free + 1, stop)?;
        emit_truth(alloc, code, free + 1, true)?;
        emit_expr(alloc, code, expr, scene, free)?;
    }
    Ok(())
}
