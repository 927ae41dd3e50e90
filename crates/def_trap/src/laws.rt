// The laws of traps.
ghost use Rattle.def_trap.specs.TrapLaws.{BodyTrapsDoNothing, HeadTrapsDoNothing};

/// An expression of a body that is a trap adds no effect to those of its arguments, with any bindings, flags and
/// effects before it ("Match Specifications in Erlang", "Functions Allowed Only for Tracing").
pub fn a_body_trap_does_nothing()
    ensures { BodyTrapsDoNothing }
{}

/// A clause whose head is a trap fires for no list of the lengths that the lists of its event have ("Match
/// Specifications in Erlang", "Grammar").
pub fn a_head_trap_does_nothing()
    ensures { HeadTrapsDoNothing }
{}
