// The laws of the definitions.
ghost use Rattle.def_script.specs.Laws.{ScriptHasOneProgram, ScriptIsNotRefused, RefusalIsOne, EachTextIsEither};
ghost use Rattle.def_script.specs.Laws.{ExactlyOneAnswer, FirstBrokenIsFound, FirstBrokenIsOnly, NoneIsBroken};

/// A text is the script of one program, or is refused in one way, and never both: exactly one of 'is a
/// script with this program' and 'is refused with this line' holds of any bytes.
pub fn a_text_is_one_script_or_refused()
    ensures one { ScriptHasOneProgram }
    ensures refused { ScriptIsNotRefused }
    ensures once { RefusalIsOne }
    ensures either { EachTextIsEither }
    ensures exactly { ExactlyOneAnswer }
{}

/// What is computed as the first broken rule is that of the lowest-numbered form that breaks one, and the
/// least that it breaks; where none is computed, no form breaks a rule.
pub fn the_first_broken_rule_is_computed()
    ensures found { FirstBrokenIsFound }
    ensures only { FirstBrokenIsOnly }
    ensures kept { NoneIsBroken }
{}
