// The laws of the definitions.
ghost use Rattle.def_fun.specs.Laws.{FunTokensAreOne, FunTokensAreThere, FoundTokenIsThere, NoTokenIsThere};
ghost use Rattle.def_fun.specs.Laws.{ListedTokensAre, ReadFunIsDerived};
ghost use Rattle.def_fun.specs.Laws.{NumbersArePlaces, PlacesAreNumbers, HeadBindsItsVariables};
ghost use Rattle.def_fun.specs.Laws.{ComputedOfTwoIsApplied, ComputedOfOneIsApplied, ClausesAreCounted};
ghost use Rattle.def_fun.specs.Laws.{HeadAndBodyAreShared, ReceivesAsSends, SendsAsCalls};

/// A text has one list of tokens.
pub fn fun_tokens_are_determined()
    ensures one { FunTokensAreOne }
    ensures some { FunTokensAreThere }
{}

/// The token that is found at the front of some bytes is there, and where none is found none is there; and the tokens
/// that are listed are those of the text.
pub fn the_token_in_front_is_found()
    ensures found { FoundTokenIsThere }
    ensures none { NoTokenIsThere }
    ensures listed { ListedTokensAre }
{}

/// The clauses that are read of some tokens are spelled by them, as the grammar and the levels of operators say.
pub fn a_fun_that_is_read_is_spelled()
    ensures { ReadFunIsDerived }
{}

/// The number of a variable of a head is its place among the names of the head, and each place is the number of
/// the name there; each variable of a head is the name of the whole, `_`, or one with a number.
pub fn the_names_of_a_head_are_numbered()
    ensures places { NumbersArePlaces }
    ensures numbers { PlacesAreNumbers }
    ensures bound { HeadBindsItsVariables }
{}

/// The value that is computed of an operator of constants is the one that its function has in a specification.
pub fn computed_constants_change_no_value()
    ensures two { ComputedOfTwoIsApplied }
    ensures one { ComputedOfOneIsApplied }
{}

/// The specification of a fun has a clause for each guard of each of its clauses, and one for a clause without
/// guards; the clauses of one clause of the fun have the same head and the same body.
pub fn each_guard_is_a_clause()
    ensures counted { ClausesAreCounted }
    ensures shared { HeadAndBodyAreShared }
{}

/// A fun that is translated for receives is translated to the same term for sends, and one for sends to the same
/// term for calls.
pub fn a_dialect_with_more_actions_changes_nothing()
    ensures receives { ReceivesAsSends }
    ensures sends { SendsAsCalls }
{}
