// What becomes of a clause.
ghost use Rattle.std.specs.Prelude.{◌≡◌, IfOk, Option, None};
ghost use Rattle.def_spec.specs.Matching as matching;
ghost use Rattle.def_explain.specs.Reasons as reasons;
ghost use Rattle.def_explain.specs.Reasons.{has_value, by_condition, bound_within, untrue_by, untrue_in};
ghost use Rattle.tn_action.specs.Views.{context_seen};
ghost use Rattle.tn_head.specs.Views.{bindings_seen};
ghost use Rattle.tn_guard.specs.Views.{value_seen};
ghost use Rattle.tn_spec.specs.Views.{dialect_of, expr_seen, exprs_seen};
ghost use Rattle.tn_verdict.specs.Reasons.{clause_verdict_of};
ghost use Rattle.tn_verdict.specs.Views.{reason_seen, reasons_seen, part_at, verdict_seen};

use crate::faults::fault_in;
use crate::heads::head_reason;
use crate::reason::{BoundWithin, ConditionReason, Reason, Verdict};
use bumpalo::Bump;
use std::alloc::{AllocError, Allocator};
use tn_action::{Context, EvalContext, Position, body_effects, value};
use tn_guard::Value;
use tn_head::{Bindings, bind};
use tn_spec::{Clause, Dialect, Expr};

/// What becomes of a clause in a context ("Match Specifications in Erlang", "Execution of the Match"). An error
/// is refused memory.
pub fn verdict<'a, A: Allocator + Copy>(
    alloc: A,
    arena: &'a Bump<A>,
    dialect: Dialect,
    clause: &'a Clause<A>,
    context: &Context<'a, '_, A>,
) -> Result<Verdict<'a, A>, AllocError>
    ensures { IfOk result (λ v. verdict_seen v ≡ clause_verdict_of dialect clause.now context.now) }
{
    let Some(bindings) = bind(arena, &clause.head, context.list)? else {
        return match head_reason(arena, &clause.head, context.list)? {
            Some(why) => Ok(Verdict::Fails(Reason::ByHead(why))),
            None => unreachable!(),
        };
    };
    let bindings = &*arena.try_alloc(bindings)?;
    if let Some(reason) = first_untrue(
        alloc,
        dialect,
        &clause.conditions,
        bindings,
        arena,
        context,
    )? {
        return Ok(Verdict::Fails(reason));
    }
    let scene = EvalContext {
        alloc,
        arena,
        dialect,
        part: Position::Body,
        bindings,
        context,
    };
    let effects = body_effects(&clause.body, &scene)?;
    Ok(Verdict::Fires { bindings, effects })
}

/// The first condition that isn't `true`, and why.
fn first_untrue<'a, A: Allocator + Copy>(
    alloc: A,
    dialect: Dialect,
    conditions: &'a Vec<Expr<A>, A>,
    bindings: &'a Bindings<'a, A, &'a Bump<A>>,
    arena: &'a Bump<A>,
    context: &Context<'a, '_, A>,
) -> Result<Option<Reason<'a, A>>, AllocError>
    ensures { IfOk result (λ r. reasons_seen r ≡ untrue_in (dialect_of dialect) (bindings_seen bindings.now)
        (context_seen context.now) 0 (exprs_seen conditions.now.items)) }
{
    let scene = &EvalContext {
        alloc,
        arena,
        dialect,
        part: Position::Condition,
        bindings,
        context,
    };
    let mut effects = Vec::new(alloc);
    for index in 0..conditions.len() {
        let condition = &conditions[index];
        match value(condition, scene, &mut effects)? {
            Some(other) => {
                if !other.is_true() {
                    return Ok(Some(value_reason(index, condition, bindings, other)));
                }
            }
            None => return Ok(condition_fault(index, fault_in(condition, scene, &mut effects)?)),
        }
    }
    Ok(None)
}

/// That the condition after so many has this value, with its variables.
fn value_reason<'a, A: Allocator + Copy>(
    index: usize,
    condition: &'a Expr<A>,
    bindings: &'a Bindings<'a, A, &'a Bump<A>>,
    value: Value<'a, A>,
) -> Reason<'a, A>
    ensures { let bound = bound_within (expr_seen condition.now) (bindings_seen bindings.now) in
        reason_seen result ≡ by_condition index (has_value (value_seen value.entry) bound) }
{
    let bound = BoundWithin {
        condition,
        bindings,
    };
    Reason::ByCondition {
        index,
        why: ConditionReason::HasValue { value, bound },
    }
}

/// That the condition faults at this part, where there is one.
fn condition_fault<'a, A: Allocator + Copy>(
    index: usize,
    part: Option<&'a Expr<A>>,
) -> Option<Reason<'a, A>>
    ensures { (bound : matching.Bindings) (r : Option reasons.Reason) →
        reasons_seen result ≡ untrue_by index bound None (part_at part.entry) r }
{
    match part {
        Some(part) => Some(Reason::ByCondition {
            index,
            why: ConditionReason::FaultsAt(part),
        }),
        None => None,
    }
}
