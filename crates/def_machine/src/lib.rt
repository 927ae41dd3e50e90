//! What compiled match specifications are: instructions, the machine that runs them, which code is valid,
//! a test of code, and the code of a specification.
//!
//! Depends on def_term and def_spec. Promises, as laws: from each state at most one step is possible, and
//! none at the end; valid code comes to an end in every context, in at most as many steps as it has
//! instructions; code that the test accepts is valid; folded heads match alike, and folded expressions
//! evaluate alike; the code of a sound specification is valid, and ends with the specification's outcome;
//! and the test accepts that code.
//! There is no code.
#![tactic(auto)]

ghost use Rattle.def_machine.specs.Laws.{StepIsOne, NoStepFromTheEnd, RunsEndAlike, ValidCodeEnds};
ghost use Rattle.def_machine.specs.Laws.{CheckedCodeIsValid, FoldedHeadsMatchAlike};
ghost use Rattle.def_machine.specs.Laws.{FoldedExpressionsEvaluateAlike};
ghost use Rattle.def_machine.specs.Laws.{CompiledCodeIsValid, CompiledCodeEndsWithTheOutcome};
ghost use Rattle.def_machine.specs.Laws.{CompiledCodeIsChecked};

/// From each state of any code at most one step is possible, and none at the end; so two runs from one
/// state end alike.
pub fn code_does_one_thing_at_a_time()
    ensures one { StepIsOne }
    ensures ended { NoStepFromTheEnd }
    ensures alike { RunsEndAlike }
{}

/// Valid code comes to an end in every context, in at most as many steps as it has instructions; in each
/// state before the end exactly one step is possible.
pub fn valid_code_ends()
    ensures { ValidCodeEnds }
{}

/// Code that the test accepts is valid.
pub fn checked_code_is_valid()
    ensures { CheckedCodeIsValid }
{}

/// A head in which each part that one term alone matches is that term matches what the head matches, with
/// the same binding ("Match Specifications in Erlang", "Grammar").
pub fn folded_heads_match_alike()
    ensures { FoldedHeadsMatchAlike }
{}

/// An expression in which each tuple or list of constants is one constant has the value or the fault that
/// the expression has, and the same effects ("Match Specifications in Erlang", "Variables and Literals").
pub fn folded_expressions_evaluate_alike()
    ensures { FoldedExpressionsEvaluateAlike }
{}

/// The code of a sound specification is valid. In every context it has a run of at most as many steps as
/// it has instructions, which ends with the specification's outcome ("Match Specifications in Erlang",
/// "Execution of the Match"); in each state before the end exactly one step is possible.
pub fn compiled_code_gives_the_outcome()
    ensures valid { CompiledCodeIsValid }
    ensures outcome { CompiledCodeEndsWithTheOutcome }
{}

/// The test of code accepts the code of a sound specification.
pub fn compiled_code_is_accepted()
    ensures { CompiledCodeIsChecked }
{}
