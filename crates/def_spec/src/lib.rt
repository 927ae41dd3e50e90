//! What a match specification is and what it shows: flags, heads and matching, expressions with their
//! values and effects, the outcome, and how a term is read as a specification.
//!
//! Depends on def_term. Promises, as laws: the walk over a head finds the one binding, where there is one
//! and only there; the computed outcome is that of the least-numbered clause that fires; a body's value
//! is a term, a condition has no effects, and without `trace` neither flags nor effects change a value;
//! the value of `trace` says whether it changes flags; a specification that is read is sound, and a fault is the first
//! one; and inheritance gives what the manual says in each case of the two flags.
#![tactic(auto)]

ghost use Rattle.def_spec.specs.Laws.{WalkIsMatching, BindingIsUnique, WalkMissesNone, OutcomeIsComputed};
ghost use Rattle.def_spec.specs.Laws.{OutcomeIsUnique, BodiesHaveValues, ConditionsHaveNoEffects};
ghost use Rattle.def_spec.specs.Laws.{EffectsStandAfter, OnlyTraceReadsFlags, EffectsChangeNoValue};
ghost use Rattle.def_spec.specs.Laws.{TraceTellsAChange, TraceFaults, ClearsBeforeItSets, ReadSpecsAreSound};
ghost use Rattle.def_spec.specs.Laws.{FirstFaultyClause, HeadFaultFirst, ConditionFaultNext, BodyFaultLast};
ghost use Rattle.def_spec.specs.Laws.{FirstFaultyExpression, UnsupportedFirst, SpawnInherits, LinkInherits};
ghost use Rattle.def_spec.specs.Laws.{VariablesAreNumbered};

/// The walk over a head finds the one binding, and none exactly where there is none ("Match
/// Specifications in Erlang", "Grammar").
pub fn matching_is_the_one_binding()
    ensures walk { WalkIsMatching }
    ensures unique { BindingIsUnique }
    ensures none { WalkMissesNone }
{}

/// The computed outcome is that of the least-numbered clause that fires, and no other is ("Match
/// Specifications in Erlang").
pub fn outcome_is_of_the_first_clause()
    ensures computed { OutcomeIsComputed }
    ensures unique { OutcomeIsUnique }
{}

/// In a body each expression whose variables the head binds has a term as its value. The effects of what is
/// evaluated come after those before it, and a condition has none. Without `trace` an expression has the
/// value and the effects that it has alone, with any flags and after any effects.
pub fn bodies_have_values()
    ensures values { BodiesHaveValues }
    ensures conditions { ConditionsHaveNoEffects }
    ensures behind { EffectsStandAfter }
    ensures flags { OnlyTraceReadsFlags }
    ensures alone { EffectsChangeNoValue }
{}

/// `trace` with two lists of flags on a living process changes its flags, first clearing and then setting
/// them, and its value is `false` exactly where each flag of the process stays as it was just before; with
/// anything else it faults.
pub fn trace_tells_a_change()
    ensures change { TraceTellsAChange }
    ensures faults { TraceFaults }
    ensures order { ClearsBeforeItSets }
{}

/// A specification that is read has the dialect that it is read for, at least one clause, no variable that
/// its head doesn't bind, and only calls that are allowed where they are, with a number of arguments
/// that fits; and its variables are numbered from 0 to 999.
pub fn read_specifications_are_sound()
    ensures sound { ReadSpecsAreSound }
    ensures numbered { VariablesAreNumbered }
{}

/// The fault that is answered is the first: of the clauses in order; of a clause the head's, then that of
/// the conditions, then that of the body; of expressions the first one's; and an unsupported name before
/// anything else of its call.
pub fn the_first_fault_is_answered()
    ensures clauses { FirstFaultyClause }
    ensures head { HeadFaultFirst }
    ensures conditions { ConditionFaultNext }
    ensures body { BodyFaultLast }
    ensures expressions { FirstFaultyExpression }
    ensures names { UnsupportedFirst }
{}

/// What a spawn and a link give to the other process, and what the giving one keeps, in the four cases of
/// the two flags (`trace:process/4`: `set_on_spawn` and `set_on_first_spawn`, `set_on_link` and
/// `set_on_first_link`).
pub fn flags_are_inherited()
    ensures spawn { SpawnInherits }
    ensures link { LinkInherits }
{}
