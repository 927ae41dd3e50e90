// The laws of the reasons that a line gives, and of the offsets at which commands begin.
ghost use Rattle.def_wording.specs.WordingLaws.{BrokenRuleHasAReason};
ghost use Rattle.def_wording.specs.WordingLaws.{ShapelessStepHasAReason, ShapelessCommandHasAReason};
ghost use Rattle.def_wording.specs.CommandOffsetLaws.{CommandBeginsAtItem, CommandStartsAreAll};

/// A form breaks a rule, other than that on limits, exactly where there is a reason, which says what of it does.
pub fn a_broken_rule_has_a_reason()
    ensures { BrokenRuleHasAReason }
{}

/// A term is no step, and no command, exactly where there is a reason, which says what of it has no shape.
pub fn a_shapeless_term_has_a_reason()
    ensures step { ShapelessStepHasAReason }
    ensures command { ShapelessCommandHasAReason }
{}

/// In a text of forms a command begins at one offset: as an item of its form, and as the command of its number in the
/// control list. As many begin as there are.
pub fn a_command_begins_at_one_offset()
    ensures one { CommandBeginsAtItem }
    ensures all { CommandStartsAreAll }
{}
