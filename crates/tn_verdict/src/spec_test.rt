// What becomes of the clauses of a specification.
ghost use Rattle.std.specs.Prelude.{◌≡◌, ◌++◌, [], OnOk, OnErr, IfOk, flat_map, map};
ghost use Rattle.def_explain.specs.Texts.{binding_line, ending_text, end_text, clause_text};
ghost use Rattle.tn_guard.specs.Views.{value_seen};
ghost use Rattle.tn_head.specs.Views.{binding_seen, bindings_seen};
ghost use Rattle.tn_spec.specs.Views.{dialect_of};
ghost use Rattle.tn_action.specs.Views.{effect_seen};
ghost use Rattle.tn_verdict.specs.Views.{reason_seen};
ghost use Rattle.tn_text.specs.Writes.{Grows};
ghost use Rattle.tn_difference.specs.Logic.{logic_of_clause};
ghost use Rattle.tn_difference.specs.Effects.{message_term};
ghost use Rattle.tn_verdict.specs.SpecTests.{spec_test_of};
ghost use Rattle.tn_verdict.specs.SpecTests.{spec_test_in, failed_text, fired_text};
ghost use Rattle.tn_verdict.specs.SpecTests.{fires_line, message_line, Appends};
ghost use Rattle.tn_verdict.specs.SpecTests.{line_of_difference, differences_text};
ghost use Rattle.tn_difference.specs.Differences.{difference_seen, difference_line_where};

use crate::clauses::verdict;
use crate::effects::put_effects;
use crate::expression_text::put_variable;
use crate::reason::{Reason, Verdict};
use crate::reason_text::put_reason;
use bumpalo::Bump;
use std::alloc::{AllocError, Allocator};
use tn_action::{Context, Effect};
use tn_difference::{
    Difference, body_differs, is_silent, last_message, list_differs, logic_differs, order_differs,
    put_difference,
};
use tn_guard::{Value, write_value};
use tn_head::{Binding, Bindings};
use tn_spec::{Clause, Dialect, Spec};
use tn_text::write_next;

/// Appends the line of a binding.
fn put_binding<A: Allocator, B: Allocator>(
    number: u16,
    value: Value<'_, A>,
    out: &mut Vec<u8, B>,
) -> Result<(), AllocError>
    ensures ok { OnOk result (out.new.items ≡ out.old.items ++ binding_line (number, value_seen value.entry)) }
    ensures grows { Grows out.old.items out.new.items }
{
    out.extend_from_slice(b"  ")?;
    put_variable(number, out)?;
    out.extend_from_slice(b" is ")?;
    write_value(value, out)?;
    out.push(b'\n')?;
    Ok(())
}

/// Appends the line of each of the bindings.
fn put_each<A: Allocator, B: Allocator>(
    bindings: &[Binding<'_, A>],
    out: &mut Vec<u8, B>,
) -> Result<(), AllocError>
    ensures ok { OnOk result (out.new.items ≡ out.old.items ++ flat_map binding_line (map binding_seen bindings.now)) }
    ensures grows { Grows out.old.items out.new.items }
{
    for binding in bindings {
        put_binding(binding.number, binding.value, out)?;
    }
    Ok(())
}

/// Appends the line of each binding, by rising number.
fn put_bindings<'a, A: Allocator, D: Allocator, B: Allocator>(
    bindings: &Bindings<'a, A, D>,
    out: &mut Vec<u8, B>,
) -> Result<(), AllocError>
    ensures ok { OnOk result (out.new.items ≡ out.old.items ++ flat_map binding_line (bindings_seen bindings.now)) }
    ensures grows { Grows out.old.items out.new.items }
{
    match bindings {
        Bindings::Whole(number, list) => put_binding(*number, list.list(), out),
        Bindings::Each(bindings) => put_each(bindings.as_slice(), out),
    }
}

/// Appends what the last message makes of the message's end.
fn put_ending<A: Allocator, B: Allocator>(
    last: Option<Value<'_, A>>,
    out: &mut Vec<u8, B>,
) -> Result<(), AllocError>
    ensures ok { OnOk result (out.new.items ≡ out.old.items ++ ending_text (message_term last.entry)) }
    ensures grows { Grows out.old.items out.new.items }
{
    let Some(value) = last else {
        return out.extend_from_slice(b"a message");
    };
    if value.is_word("true") {
        return out.extend_from_slice(b"a message");
    }
    if value.is_word("false") {
        return out.extend_from_slice(b"no message: it is false");
    }
    out.extend_from_slice(b"a message that ends in ")?;
    Ok(write_value(value, out)?)
}

/// Appends what the effects of a clause that fires in this process make of the message.
fn put_end<A: Allocator, B: Allocator>(
    dialect: Dialect,
    self_pid: u32,
    effects: &[Effect<'_, A>],
    out: &mut Vec<u8, B>,
) -> Result<(), AllocError>
    ensures ok { Appends (end_text (dialect_of dialect) self_pid (map effect_seen effects.now)) result out.old out.new }
    ensures grows { Grows out.old.items out.new.items }
{
    if let Dialect::Call = dialect {
        if is_silent(self_pid, false, effects) {
            return out.extend_from_slice(b"no message: silent");
        }
    }
    put_ending(last_message(effects), out)
}

/// Appends a clause's number, after so many clauses. After an `Err` a part of it may stand there.
pub fn put_clause<B: Allocator>(before: usize, out: &mut Vec<u8, B>) -> Result<(), AllocError>
    ensures ok { OnOk result (out.new.items ≡ out.old.items ++ clause_text before []) }
    ensures grows { Grows out.old.items out.new.items }
{
    out.extend_from_slice(b"clause ")?;
    write_next(before, out)
}

/// Appends that the clause fires, and what its body asks for.
fn put_fires<A: Allocator, B: Allocator>(
    before: usize,
    effects: &[Effect<'_, A>],
    out: &mut Vec<u8, B>,
) -> Result<(), AllocError>
    ensures ok { OnOk result (out.new.items ≡ out.old.items ++ fires_line before (map effect_seen effects.now)) }
    ensures grows { Grows out.old.items out.new.items }
{
    put_clause(before, out)?;
    out.extend_from_slice(b" fires")?;
    put_effects(effects, out)?;
    out.push(b'\n')?;
    Ok(())
}

/// Appends the line of the message that the effects of a clause that fires in this process make.
fn put_message<A: Allocator, B: Allocator>(
    dialect: Dialect,
    pid: u32,
    effects: &[Effect<'_, A>],
    out: &mut Vec<u8, B>,
) -> Result<(), AllocError>
    ensures ok { Appends (message_line (dialect_of dialect) pid (map effect_seen effects.now)) result out.old out.new }
    ensures grows { Grows out.old.items out.new.items }
{
    out.extend_from_slice(b"=> ")?;
    put_end(dialect, pid, effects, out)?;
    out.push(b'\n')?;
    Ok(())
}

/// Appends the line of what a running node does otherwise, where it does.
fn put_where_differs<B: Allocator>(
    differs: bool,
    difference: Difference,
    out: &mut Vec<u8, B>,
) -> Result<(), AllocError>
    ensures ok { Appends (difference_line_where differs (difference_seen difference)) result out.old out.new }
    ensures grows { Grows out.old.items out.new.items }
{
    if !differs {
        return Ok(());
    }
    put_difference(difference, out)?;
    out.push(b'\n')?;
    Ok(())
}

/// A specification that is held against a list.
#[derive_where(Clone, Copy)]
struct SpecTest<'a, 'c, A: Allocator + Copy> {
    /// For the effects.
    alloc: A,
    /// For what is evaluated.
    arena: &'a Bump<A>,
    spec: &'a Spec<A>,
    context: &'c Context<'a, 'c, A>,
}

impl<'a, 'c, A: Allocator + Copy> SpecTest<'a, 'c, A> {
    /// Appends the line of a clause that doesn't fire.
    fn put_failed<B: Allocator>(
        &self,
        before: usize,
        reason: Reason<'_, A>,
        out: &mut Vec<u8, B>,
    ) -> Result<(), AllocError>
        ensures ok { OnOk result (out.new.items ≡ out.old.items ++ failed_text before (reason_seen reason.entry)) }
        ensures grows { Grows out.old.items out.new.items }
    {
        put_clause(before, out)?;
        out.extend_from_slice(b": ")?;
        put_reason(reason, out)?;
        out.push(b'\n')?;
        Ok(())
    }

    /// Appends the lines of a clause that fires.
    fn put_fired<B: Allocator>(
        &self,
        before: usize,
        clause: &'a Clause<A>,
        bindings: &Bindings<'a, A, &'a Bump<A>>,
        effects: &[Effect<'_, A>],
        out: &mut Vec<u8, B>,
    ) -> Result<(), AllocError>
        ensures ok { Appends (fired_text self.now before clause.now bindings.now effects.now) result out.old out.new }
        ensures grows { Grows out.old.items out.new.items }
    {
        put_fires(before, effects, out)?;
        put_bindings(bindings, out)?;
        put_message(self.spec.dialect, self.context.self_pid, effects, out)?;
        self.put_differences(clause, bindings, effects, out)
    }

    /// Appends the line of what a running node does otherwise, by the effects of a clause that fires, where it does.
    fn put_body_difference<B: Allocator>(
        &self,
        difference: Difference,
        effects: &[Effect<'_, A>],
        out: &mut Vec<u8, B>,
    ) -> Result<(), AllocError>
        ensures ok { Appends (line_of_difference self.now effects.now difference) result out.old out.new }
        ensures grows { Grows out.old.items out.new.items }
    {
        let differs = body_differs(difference, self.spec.dialect, self.context, effects);
        put_where_differs(differs, difference, out)
    }

    /// Whether a clause that fires calls logic on what is no boolean.
    fn logic_differs(
        &self,
        clause: &'a Clause<A>,
        bindings: &Bindings<'a, A, &'a Bump<A>>,
    ) -> Result<bool, AllocError>
        ensures { IfOk result (λ r.
            r ≡ logic_of_clause self.now.spec.now.dialect clause.now bindings.now self.now.context.now) }
    {
        Ok(logic_differs(
            self.alloc,
            self.arena,
            self.spec.dialect,
            clause,
            bindings,
            self.context,
        )?)
    }

    /// Appends a line for each that a running node does otherwise at a clause that fires.
    fn put_differences<B: Allocator>(
        &self,
        clause: &'a Clause<A>,
        bindings: &Bindings<'a, A, &'a Bump<A>>,
        effects: &[Effect<'_, A>],
        out: &mut Vec<u8, B>,
    ) -> Result<(), AllocError>
        ensures ok { Appends (differences_text self.now clause.now bindings.now effects.now) result out.old out.new }
        ensures grows { Grows out.old.items out.new.items }
    {
        put_where_differs(order_differs(clause), Difference::EvaluatesFromRight, out)?;
        let logic = self.logic_differs(clause, bindings)?;
        put_where_differs(logic, Difference::FaultsInLogic, out)?;
        let list = list_differs(self.spec.dialect, clause);
        put_where_differs(list, Difference::ReadsNoList, out)?;
        self.put_body_difference(Difference::NodeEnds, effects, out)?;
        self.put_body_difference(Difference::ReadsFreed, effects, out)?;
        self.put_body_difference(Difference::SuppressesMessage, effects, out)?;
        self.put_body_difference(Difference::LeavesNoMark, effects, out)?;
        self.put_body_difference(Difference::IgnoresSilent, effects, out)?;
        self.put_body_difference(Difference::EndsTest, effects, out)
    }

    /// Appends what becomes of the clauses, up to the first that fires.
    fn put<B: Allocator>(&self, out: &mut Vec<u8, B>) -> Result<(), AllocError>
        ensures ok { OnOk result (out.new.items ≡ out.old.items ++ spec_test_in self.now) }
        ensures grows { Grows out.old.items out.new.items }
    {
        let clauses = &self.spec.clauses;
        for i in 0..clauses.len() {
            let clause = &clauses[i];
            match verdict(
                self.alloc,
                self.arena,
                self.spec.dialect,
                clause,
                self.context,
            )? {
                Verdict::Fails(reason) => self.put_failed(i, reason, out)?,
                Verdict::Fires { bindings, effects } => {
                    return self.put_fired(i, clause, bindings, &effects, out);
                }
            }
        }
        out.extend_from_slice(b"=> no message: no clause fires\n")
    }
}

/// Appends what becomes of the clauses of a specification in a context, up to the first that fires, with why
/// each before it doesn't, what its variables are bound to, what its body asks for, and what that makes of the
/// message. After an `Err`, which is refused memory, the vector is as it was.
pub fn put_spec_test<A: Allocator + Copy, B: Allocator>(
    alloc: A,
    spec: &Spec<A>,
    context: &Context<'_, '_, A>,
    out: &mut Vec<u8, B>,
) -> Result<(), AllocError>
    ensures ok { OnOk result (out.new.items ≡ out.old.items ++ spec_test_of spec.now context.now) }
    ensures err { OnErr result (out.new.items ≡ out.old.items) }
{
    let arena = Bump::new(alloc);
    let len = out.len();
    let trial = SpecTest {
        alloc,
        arena: &arena,
        spec,
        context,
    };
    let done = trial.put(out);
    if done.is_err() {
        out.truncate(len);
    }
    done
}
