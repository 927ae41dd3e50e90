// What a refusal says of its text.
ghost use Rattle.tn_refusal.specs.Laws.{RefusedTextIsPlaced};

/// A text that is refused at an offset is within the length, and one that is refused for a form is all
/// tokens: so of a refused text the place in the line of `explain` is exact.
pub fn a_refused_text_has_its_place()
    ensures { RefusedTextIsPlaced }
{}
