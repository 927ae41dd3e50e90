// The evaluation of an event, clause by clause.
ghost use Rattle.std.specs.Prelude.{◌≡◌, ◌++◌, OnOk, IfOk, map};
ghost use Rattle.def_session.specs.Settings.{by};
ghost use Rattle.tn_spec.specs.Wholes.{spec_seen};
ghost use Rattle.tn_action.specs.Views.{effect_seen};
ghost use Rattle.tn_verdict.specs.Views.{reason_seen};
ghost use Rattle.tn_session.specs.Looks.{look_setting};
ghost use Rattle.tn_text.specs.Writes.{Grows};
ghost use Rattle.tn_explain.specs.Evaluations.{EvaluatesBy};
ghost use Rattle.tn_explain.specs.LineParts.{failing_lines, firing_lines};
ghost use Rattle.tn_explain.specs.Lines.{Adds};

use crate::line::{Lines, begin};
use bumpalo::Bump;
use std::alloc::{AllocError, Allocator};
use tn_action::{Context, Effect};
use tn_index::Setting;
use tn_running_node::clause_differences;
use tn_session::{Kind, mark_for};
use tn_spec::Spec;
use tn_verdict::{Reason, Verdict, put_clause, put_effects, put_reason, verdict};

/// What comes of the evaluation of an event.
#[derive(Clone, Copy)]
pub(crate) enum Evaluation {
    /// The event isn't evaluated, or by a setting that is `false` or whose clauses don't fire.
    Refused,
    /// There are effects, and they ask for a mark of the frame of a call or don't.
    Done { mark: Option<Kind> },
}

impl<A: Allocator + Copy> Lines<'_, A> {
    /// Appends what a setting makes of a context: that it is `false`, or what becomes of the clauses of its
    /// specification.
    pub(crate) fn put_setting(
        &self,
        setting: Setting<&Spec<A>>,
        context: &Context<'_, '_, A>,
        out: &mut Vec<u8, A>,
    ) -> Result<Evaluation, AllocError>
        ensures ok { IfOk result (EvaluatesBy self.now (look_setting setting.entry) context.now out.old out.new) }
        ensures grows { Grows out.old.items out.new.items }
    {
        match setting {
            Setting::Disabled => {
                self.say(b"the setting is false", out)?;
                Ok(Evaluation::Refused)
            }
            Setting::Always => Ok(Evaluation::Done { mark: None }),
            Setting::Specification(spec) => self.put_spec(spec, context, out),
        }
    }

    /// Appends what becomes of the clauses of a specification, up to the first that fires. What is evaluated lies
    /// in an arena that is given up with the evaluation.
    fn put_spec(
        &self,
        spec: &Spec<A>,
        context: &Context<'_, '_, A>,
        out: &mut Vec<u8, A>,
    ) -> Result<Evaluation, AllocError>
        ensures ok { IfOk result (EvaluatesBy self.now (by (spec_seen spec.now)) context.now out.old out.new) }
        ensures grows { Grows out.old.items out.new.items }
    {
        let arena = Bump::new(self.alloc);
        Ok(self.put_clauses(&arena, spec, context, out)?)
    }

    /// The same in this arena.
    fn put_clauses<'a>(
        &self,
        arena: &'a Bump<A>,
        spec: &'a Spec<A>,
        context: &Context<'a, '_, A>,
        out: &mut Vec<u8, A>,
    ) -> Result<Evaluation, AllocError>
        ensures ok { IfOk result (EvaluatesBy self.now (by (spec_seen spec.now)) context.now out.old out.new) }
        ensures grows { Grows out.old.items out.new.items }
    {
        let clauses = &spec.clauses;
        for i in 0..clauses.len() {
            let clause = &clauses[i];
            match verdict(self.alloc, arena, spec.dialect, clause, context)? {
                Verdict::Fails(reason) => self.put_failing(i, reason, out)?,
                Verdict::Fires { bindings, effects } => {
                    let dialect = spec.dialect;
                    let these = clause_differences(
                        self.alloc, arena, dialect, clause, bindings, context,
                    )?;
                    self.put_firing(i, &effects, out)?;
                    self.put_differences(these, dialect, context, &effects, out)?;
                    let mark = mark_for(&effects);
                    return Ok(Evaluation::Done { mark });
                }
            }
        }
        self.say(b"no clause fires", out)?;
        Ok(Evaluation::Refused)
    }

    /// Appends the line of a clause that doesn't fire, after so many.
    fn put_failing(
        &self,
        before: usize,
        reason: Reason<'_, A>,
        out: &mut Vec<u8, A>,
    ) -> Result<(), AllocError>
        ensures ok { OnOk result (Adds self.now (failing_lines before (reason_seen reason.entry)) out.old out.new) }
        ensures grows { Grows out.old.items out.new.items }
    {
        begin(self.name, out)?;
        put_clause(before, out)?;
        out.extend_from_slice(b": ")?;
        put_reason(reason, out)?;
        out.push(b'\n')?;
        Ok(())
    }

    /// Appends the line of a clause that fires, after so many.
    fn put_firing(
        &self,
        before: usize,
        effects: &[Effect<'_, A>],
        out: &mut Vec<u8, A>,
    ) -> Result<(), AllocError>
        ensures ok { OnOk result (Adds self.now (firing_lines before (map effect_seen effects.now)) out.old out.new) }
        ensures grows { Grows out.old.items out.new.items }
    {
        begin(self.name, out)?;
        put_clause(before, out)?;
        out.extend_from_slice(b" fires")?;
        put_effects(effects, out)?;
        out.push(b'\n')?;
        Ok(())
    }
}
