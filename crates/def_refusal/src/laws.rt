// The laws of the items of forms.
ghost use Rattle.def_refusal.specs.Laws.{RefusedItemIsThere, RefusedItemIsOne, ItemOffsetIsOne};
ghost use Rattle.def_refusal.specs.Laws.{ElementIsAfterCommas, ShapelessItemIsNoForm, ItemIsTheBreak, NoItemNoBreak};

/// A refusal of a text is of one step or command, or of none; and a step or a command begins at one offset.
pub fn a_refusal_has_one_item()
    ensures there { RefusedItemIsThere }
    ensures one { RefusedItemIsOne }
    ensures place { ItemOffsetIsOne }
{}

/// After so many elements of a tuple or a list, each with a comma after it, stand the tokens that are computed.
pub fn an_element_is_after_commas()
    ensures { ElementIsAfterCommas }
{}

/// A term for which a step or a command without a shape is named is no form.
pub fn a_shapeless_item_is_no_form()
    ensures { ShapelessItemIsNoForm }
{}

/// Where a form keeps a rule without its steps or commands, the item that is named is the one with which it breaks the
/// rule; and where none is named, it keeps the rule with all of them.
pub fn an_item_breaks_the_rule()
    ensures broken { ItemIsTheBreak }
    ensures kept { NoItemNoBreak }
{}
